// The job in hand, as the driver needs it.
ghost use Rattle.std.specs.Prelude.{◌≡◌, ◌≢◌, ◌≤◌, length, option_copied, option_map, IfSome};
ghost use Rattle.block_machine.specs.Blocks.{desc_of, job_block};
ghost use Rattle.block_machine.specs.Next.{next_in};
ghost use Rattle.nv_desk.specs.Desk.{state_of};
ghost use Rattle.nv_desk.specs.Sound.{IsPendingJob};

use crate::Desk;
use block_machine::block_config::BlockDesc;

impl Desk {
    /// The description of the block of the job in hand, which is a configured one that is PENDING, as is the block of the job
    /// that comes next.
    #[tactic(auto, using(crate::proofs::Picks::next_pending))]
    pub fn desc_in_hand(&self) -> Option<&BlockDesc>
        ensures desc { option_copied result ≡ option_map (λ j. desc_of self.now.config (job_block j)) (state_of self.now).hand }
        ensures pending { IfSome (state_of self.now).hand (IsPendingJob self.now.config (state_of self.now)) }
        ensures named { IfSome (state_of self.now).hand (λ j. job_block j ≢ 0) }
        ensures known { IfSome (state_of self.now).hand (λ j. job_block j ≤ length self.now.config.blocks) }
        ensures next { IfSome (next_in self.now.config (state_of self.now).waiting) (IsPendingJob self.now.config (state_of self.now)) }
    {
        let job = self.kept.jobs.hand()?;
        self.config.block(job.block())
    }
}
