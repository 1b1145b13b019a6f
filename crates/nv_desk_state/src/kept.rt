// What the desk keeps of the machine's state.
ghost use Rattle.std.specs.Prelude.{◌≡◌, ◌≤◌, ◌<◌, ◌+◌, ◌-◌, ◌^◌, ◌++◌, ◌∷◌, [], length, None, IfOk};
ghost use Rattle.std.specs.Option.{option_map_or};
ghost use Rattle.block_machine.specs.Words.{Configuration, Pending};
ghost use Rattle.block_machine.specs.State.{State};
ghost use Rattle.block_machine.specs.Blocks.{job_block, rank_of};
ghost use Rattle.block_machine.specs.Sweeps.{sweep_entries, sweep_at};
ghost use Rattle.block_machine.specs.Reply.{reserved_entries};
ghost use Rattle.block_machine.specs.StartUp.{at_first};
ghost use Rattle.block_machine.specs.Steps.{with_status, with_sweep, accepted};
ghost use Rattle.job_pending.specs.Pending.{IsNew, most_of};
ghost use Rattle.job_pending.specs.Unpicked.{unpicked_in};
ghost use Rattle.nv_desk_state.specs.Kept.{Agrees, IsChange};

use crate::sweep::PendingSweep;
use block_machine::block_config::Config;
use block_machine::nv_base::{ReqResult, Request};
use block_states::BlockStates;
use job_pending::{Job, PendingJobs};
use ram_blocks::RamFlags;
use std::alloc::{AllocError, Global};

/// What the desk keeps of the machine's state. Marks and counts are never kept.
#[derive(Drop)]
pub struct Kept {
    pub started: bool,
    pub off: bool,
    pub blocks: BlockStates,
    pub jobs: PendingJobs,
    pub sweep: Option<PendingSweep>,
}

impl Kept {
    /// What is kept before the first start-up. It takes the memory for all blocks and jobs.
    pub fn make(alloc: Global, config: &Config) -> Result<Kept, AllocError>
        ensures { IfOk result (λ k. Agrees config.now k at_first) }
    {
        Ok(Kept {
            started: false,
            off: false,
            blocks: BlockStates::make(alloc, config)?,
            jobs: PendingJobs::make(alloc, config)?,
            sweep: None,
        })
    }

    /// All entries that are reserved: for an Off, for the jobs, and for a request on all blocks.
    pub fn reserved(&self) -> u64
        ensures value { (c : Configuration) (s : State) → Agrees c self.now s → result ≡ reserved_entries c s }
        ensures few { result < 2 ^ 34 }
    {
        let off = u64::from(self.started && !self.off);
        off + self.jobs.reserved() + entries_of(&self.sweep)
    }

    /// What an accepted request changes at once.
    pub fn change(&mut self, request: &Request)
        requires { IsChange self.old.blocks.rooms request.now }
        ensures { (c : Configuration) (s : State) → Agrees c self.old s → Agrees c self.new (accepted c s request.now) }
    {
        match request {
            Request::SetIndex { block, index } => self.blocks.set_index(*block, *index),
            Request::SetProtection { block, on } => self.blocks.set_protected(*block, *on),
            Request::SetLock { block, on } => self.blocks.set_locked(*block, *on),
            Request::SetRam { block, on } => self.blocks.set_flags(*block, flags(*on)),
            Request::PutRam { block, content } => self.blocks.put_ram(*block, content.as_slice()),
            Request::CancelWriteAll => self.cancel(),
            _ => {}
        }
    }

    fn cancel(&mut self)
        ensures { (c : Configuration) (s : State) → Agrees c self.old s → Agrees c self.new (accepted c s Request.CancelWriteAll) }
    {
        if let Some(sweep) = &mut self.sweep {
            sweep.cancel();
        }
    }

    /// A job begins to be pending.
    pub fn accept(&mut self, config: &Config, job: Job)
        requires known { job_block job < self.old.jobs.slots.places }
        requires room { unpicked_in (rank_of config.now job).immediate self.old.jobs.unpicked < most_of config.now (rank_of config.now job).immediate }
        requires reserved { self.old.jobs.reserved + job.reserved < 2 ^ 32 }
        ensures { (s : State) → Agrees config.now self.old s → IsNew job s.waiting s.hand → job.taken ≡ None → s.sweep ≡ None
            → Agrees config.now self.new (record (with_status (job_block job) Pending s) { waiting = s.waiting ++ job ∷ [] }) }
    {
        self.blocks.set_status(job.block(), ReqResult::Pending);
        self.jobs.accept(config, job);
    }

    /// A request on all blocks begins to be pending.
    pub fn begin_sweep(&mut self, number: u32, writes: bool, entries: u32)
        ensures { (c : Configuration) (s : State) → Agrees c self.old s → s.count ≡ number → entries ≡ sweep_entries c (sweep_at c 0 writes)
            → Agrees c self.new (with_sweep c s writes) }
    {
        self.blocks.set_status(0, ReqResult::Pending);
        self.sweep = Some(PendingSweep::accepted(number, writes, entries));
    }
}

fn flags(on: bool) -> RamFlags
    ensures { result ≡ record { valid = on; changed = on } }
{
    RamFlags {
        valid: on,
        changed: on,
    }
}

// The entries that are reserved for a request on all blocks, if one is pending.
fn entries_of(sweep: &Option<PendingSweep>) -> u64
    ensures value { result ≡ option_map_or (λ p. p.entries) sweep.now 0 }
    ensures few { result < 2 ^ 32 }
{
    match sweep {
        Some(sweep) => u64::from(sweep.entries),
        None => 0,
    }
}
