// What the entries of a request on all blocks change of what is kept.
ghost use Rattle.std.specs.Prelude.{◌≡◌, ◌<◌, ◌&&◌, ◌∷◌, true, false, List, ℕ, [], length, get_or, Some, None, IfSome, option_copied};
ghost use Rattle.block_machine.specs.Words.{Configuration};
ghost use Rattle.block_machine.specs.State.{State, Sweep as MachineSweep};
ghost use Rattle.block_machine.specs.Blocks.{job_block, keeps_ram};
ghost use Rattle.block_machine.specs.Sweeps.{member_job};
ghost use Rattle.block_machine.specs.Next.{PostMember, EndSweep};
ghost use Rattle.block_machine.specs.Steps.{in_hand, with_member, posted_next};
ghost use Rattle.job_pending.specs.Take.{taken_with};
ghost use Rattle.nv_desk_state.specs.Kept.{Agrees};
ghost use Rattle.nv_desk_state.specs.Pending.{AreSweeps, IsAtMember, IsTaken};

use crate::driver_steps::note;
use crate::kept::Kept;
use crate::shares::member_entries;
use crate::sweep::PendingSweep;
use block_machine::block_config::Config;
use block_machine::nv_base::{Bytes, ReqResult};
use job_pending::{Job, Take};

impl Kept {
    /// The request on all blocks is picked, and its sweep begins.
    pub fn pick_sweep(&mut self)
        ensures { (c : Configuration) (s : State) (sw : MachineSweep) → Agrees c self.old s → s.waiting ≡ [] → s.hand ≡ None
            → s.sweep ≡ Some sw → sw.under_way ≡ false → Agrees c self.new (record s { sweep = Some (record sw { under_way = true }) }) }
    {
        if let Some(sweep) = &mut self.sweep {
            sweep.begin();
        }
    }

    /// The next member, this block, comes in hand with what it takes, and the copy of that, if one was made.
    pub fn pick_member(&mut self, config: &Config, block: u16, take: Take, copy: Option<Bytes>)
        requires { block < self.old.jobs.slots.places }
        ensures { (s : State) (sw : MachineSweep) → Agrees config.now self.old s → IsAtMember s sw block
            → Agrees config.now self.new (in_hand config.now (with_member s sw block) (member_job config.now sw block)
            (taken_with None (take, copy))) }
    {
        let Some(job) = take_next(&mut self.sweep, config, block) else {
            return;
        };
        self.blocks.set_status(block, ReqResult::Pending);
        self.jobs.pick_member(job, take, copy);
    }

    /// The next member is posted without a Pick, and gives a content or nothing.
    pub fn post_member(
        &mut self,
        config: &Config,
        block: u16,
        answer: ReqResult,
        given: Option<&[u8]>,
    )
        requires { keeps_ram config.now block ≡ true → IfSome (option_copied given) (λ x. length x ≡ get_or self.old.blocks.rooms block 0) }
        ensures { (s : State) (sw : MachineSweep) → Agrees config.now self.old s → IsAtMember s sw block
            → Agrees config.now self.new (posted_next config.now s answer (option_copied given.entry) (PostMember sw block)) }
    {
        let Some(job) = take_next(&mut self.sweep, config, block) else {
            return;
        };
        note(&mut self.sweep, answer);
        self.blocks
            .end(config, block, job.kind(), true, answer, given);
    }

    /// The sweep ends with the Post of id 0.
    pub fn end_sweep(&mut self, answer: ReqResult)
        ensures { (c : Configuration) (s : State) (sw : MachineSweep) → Agrees c self.old s → s.hand ≡ None
            → Agrees c self.new (posted_next c s answer None (EndSweep sw)) }
    {
        self.blocks.set_status(0, answer);
        self.sweep = None;
    }
}

// The job of the next member, which isn't to come any more.
fn take_next(sweep: &mut Option<PendingSweep>, config: &Config, block: u16) -> Option<Job>
    ensures block { IfSome result (λ j. job_block j ≡ block) }
    ensures taken { (sw : MachineSweep) (rest : List ℕ) → AreSweeps config.now sweep.old (Some sw) → sw.canceled ≡ false
        → sw.left ≡ block ∷ rest → IsTaken config.now sweep.new sw block result }
{
    let Some(sweep) = sweep else {
        return None;
    };
    let writes = sweep.members.writes();
    let entries = member_entries(config, writes, block);
    sweep.take(block, entries);
    Some(Job::of_member(sweep.number, block, writes, entries))
}
