// What the driver asks of the desk. Nothing changes.
ghost use Rattle.std.specs.Prelude.{◌≡◌, ◌≤◌, ◌↔◌, IfSome, IsTrue, false, length, Some, option_copied};
ghost use Rattle.std.specs.Option.{option_map_or};
ghost use Rattle.block_machine.specs.State.{Sweep as MachineSweep};
ghost use Rattle.block_machine.specs.Blocks.{block_at, desc_of, rank_of, status_of};
ghost use Rattle.block_machine.specs.Next.{next_in};
ghost use Rattle.block_machine.specs.Reply.{reply_of};
ghost use Rattle.block_machine.specs.Words.{Status, StatusIs};
ghost use Rattle.nv_desk.specs.Desk.{state_of};
ghost use Rattle.nv_desk.specs.Picks.{IsInterruption};
ghost use Rattle.nv_desk.specs.Sound.{IsPendingJob};

use crate::Desk;
use block_machine::block_config::Config;
use block_machine::nv_base::ReqResult;
use job_pending::Job;
use nv_recorder::LentRequest;

impl Desk {
    /// The configuration.
    pub fn config(&self) -> &Config
        ensures { result.now ≡ self.now.config }
    {
        &self.config
    }

    /// Whether the power went off since the last start-up.
    pub fn is_off(&self) -> bool
        ensures { result ≡ (state_of self.now).off }
    {
        self.kept.off
    }

    /// The status of a block, and of the requests on all blocks for id 0 (NvM_GetErrorStatus). It is what a `Status` is answered
    /// with, where that isn't refused.
    pub fn status(&self, block: u16) -> ReqResult
        ensures status { result ≡ status_of (state_of self.now) block }
        ensures asked { (r : ReqResult) → reply_of self.now.config self.now.cap (state_of self.now) (Status block) ≡ StatusIs r → result ≡ r }
    {
        self.kept.blocks.facts(block).status
    }

    /// The data index of a block.
    pub fn index(&self, block: u16) -> u8
        ensures { result ≡ (block_at (state_of self.now) block).index }
    {
        self.kept.blocks.facts(block).index
    }

    /// The RAM of a block, of no bytes where the manager keeps none.
    pub fn ram(&self, block: u16) -> &[u8]
        ensures value { result.now ≡ (block_at (state_of self.now) block).ram }
        ensures within { length result.now ≤ (desc_of self.now.config block).length }
    {
        self.kept.blocks.ram(block)
    }

    /// Whether the RAM of a block is valid: a WriteAll writes it, where it is changed too.
    pub fn ram_is_valid(&self, block: u16) -> bool
        ensures { result ≡ (block_at (state_of self.now) block).valid }
    {
        self.kept.blocks.flags(block).valid
    }

    /// The job in hand.
    pub fn hand(&self) -> Option<&Job>
        ensures { option_copied result ≡ (state_of self.now).hand }
    {
        self.kept.jobs.hand()
    }

    /// The job that goes before all others that wait. Its block is PENDING.
    pub fn next_job(&self) -> Option<&Job>
        ensures next { option_copied result ≡ next_in self.now.config (state_of self.now).waiting }
        ensures pending { IfSome (next_in self.now.config (state_of self.now).waiting) (IsPendingJob self.now.config (state_of self.now)) }
    {
        self.kept.jobs.next()
    }

    /// Whether the job in hand is an immediate one.
    pub fn is_urgent(&self) -> bool
        ensures { result ≡ option_map_or (λ j. (rank_of self.now.config j).immediate) (state_of self.now).hand false }
    {
        match self.hand() {
            Some(job) => !job.is_member() && self.is_immediate(LentRequest::of(job.request())),
            None => false,
        }
    }

    /// Whether a job is in hand that the next one may interrupt.
    pub fn may_interrupt(&self) -> bool
        ensures { IsTrue result ↔ IsInterruption self.now }
    {
        let Some(_held) = self.hand() else {
            return false;
        };
        if !self.kept.jobs.next_is_immediate() {
            return false;
        }
        let Some(_next) = self.next_job() else {
            return false;
        };
        self.kept.jobs.may_interrupt(&self.config)
    }

    /// Whether the request on all blocks that is pending is a WriteAll.
    pub fn sweep_writes(&self) -> bool
        ensures { (sw : MachineSweep) → (state_of self.now).sweep ≡ Some sw → result ≡ sw.writes }
    {
        match &self.kept.sweep {
            Some(sweep) => sweep.members.writes(),
            None => false,
        }
    }
}
