// What comes next.
ghost use Rattle.std.specs.Prelude.{◌≡◌, None};
ghost use Rattle.block_machine.specs.State.{State, Sweep as MachineSweep};
ghost use Rattle.block_machine.specs.Next.{Next, next_by, next_of};
ghost use Rattle.multi_jobs.specs.Laws.{IsNext};
ghost use Rattle.nv_desk_state.specs.Kept.{Agrees};
ghost use Rattle.nv_desk_state.specs.Next.{IsNextEntry};

use crate::kept::Kept;
use block_machine::block_config::Config;
use block_machine::nv_base::ReqResult;
use multi_jobs::SweepStep;

/// What the manager turns to next: nothing but the job in hand, if there is one; the Pick of a job on a block, of a request
/// on all blocks, or of its member; or a Post without a Pick, of a member or of block id 0 with this result.
#[derive(Clone, Copy)]
pub enum NextEntry {
    Nothing,
    PickJob,
    BeginSweep,
    PickMember { block: u16 },
    PostMember { block: u16 },
    EndSweep { result: ReqResult },
}

impl Kept {
    /// What the manager turns to next.
    pub fn next(&self, config: &Config) -> NextEntry
        ensures { (s : State) → Agrees config.now self.now s → IsNextEntry result (next_of config.now s) }
    {
        match self.jobs.next() {
            Some(_first) => NextEntry::PickJob,
            None => self.next_beside_jobs(config),
        }
    }

    // The same where no job waits.
    fn next_beside_jobs(&self, config: &Config) -> NextEntry
        ensures { (s : State) → Agrees config.now self.now s → IsNextEntry result (next_by config.now s None s.hand s.sweep) }
    {
        match self.jobs.hand() {
            Some(_) => NextEntry::Nothing,
            None => self.next_of_sweep(config),
        }
    }

    // The same where no job is pending.
    fn next_of_sweep(&self, config: &Config) -> NextEntry
        ensures { (s : State) → Agrees config.now self.now s → s.hand ≡ None → IsNextEntry result (next_by config.now s None None s.sweep) }
    {
        match &self.sweep {
            None => NextEntry::Nothing,
            Some(sweep) if sweep.under_way => entry_of(self.next_step(config)),
            Some(_) => NextEntry::BeginSweep,
        }
    }
}

fn entry_of(step: SweepStep) -> NextEntry
    ensures { (sw : MachineSweep) (n : Next) → IsNext step sw n → IsNextEntry result n }
{
    match step {
        SweepStep::Member { block } => NextEntry::PickMember { block },
        SweepStep::Skip { block } | SweepStep::Defaults { block } => {
            NextEntry::PostMember { block }
        }
        SweepStep::Ended { result } => NextEntry::EndSweep { result },
    }
}
