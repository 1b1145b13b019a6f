// The members of a request on all blocks.
ghost use Rattle.std.specs.Prelude.{◌≡◌, ◌++◌, ◌∷◌, [], Some, None, option_copied};
ghost use Rattle.block_machine.specs.Words.{Configuration};
ghost use Rattle.block_machine.specs.State.{Sweep as MachineSweep};
ghost use Rattle.block_machine.specs.Sweeps.{member_kind};
ghost use Rattle.block_machine.specs.Next.{next_of, PickMember, PostMember};
ghost use Rattle.job_pending.specs.Take.{taken_with};
ghost use Rattle.nv_desk_state.specs.Pending.{AreSweeps};
ghost use Rattle.nv_desk.specs.Desk.{state_of};
ghost use Rattle.nv_desk.specs.Members.{MayPickMember, MayPostMember};
ghost use Rattle.nv_desk.specs.Picks.{lent_or, ram_at, took_of};

use crate::Desk;
use crate::driver::add_post;
use crate::pick::{add_pick, copy_of, lent_or, taken_of_lent};
use block_machine::nv_base::{Entry, JobKind, ReqResult};
use job_pending::Take;
use nv_desk_state::PendingSweep;

impl Desk {
    /// The next member, this block, comes in hand with what it takes of a content that is lent, or, where none is, of its RAM. It
    /// takes no memory.
    pub fn pick_member(&mut self, block: u16, take: Take, lent: Option<&[u8]>, ops: u64)
        requires { MayPickMember self.old block (took_of take (lent_or (ram_at self.old block) (option_copied lent))) ops }
        ensures { (sw : MachineSweep) → next_of self.old.config (state_of self.old) ≡ PickMember sw block
            → self.new ≡ record self.old {
              entries = self.old.entries ++ Entry.Pick block (member_kind sw.writes) (taken_with None (took_of take (lent_or (ram_at self.old block) (option_copied lent.entry)))) ops ∷ [];
            } }
    {
        self.kept.blocks.fills_its_rooms();
        let _sizes = self.config.queue_sizes();
        let job = member_kind(&self.kept.sweep);
        let lent = lent_or(lent, self.kept.blocks.ram(block));
        let (taken, content) = taken_of_lent(take, lent);
        add_pick(&mut self.history, block, job, taken, content, ops);
        let copy = copy_of(take, lent, block, &mut self.places);
        self.kept.pick_member(&self.config, block, take, copy);
    }

    /// The next member, this block, is posted without a Pick, with this result, and gives a content of its length or nothing.
    /// `refused` counts the copies of it that were refused. It takes no memory.
    pub fn post_member(
        &mut self,
        block: u16,
        answer: ReqResult,
        given: Option<&[u8]>,
        refused: u8,
        ops: u64,
    )
        requires { MayPostMember self.old block answer (option_copied given) refused ops }
        ensures { (sw : MachineSweep) → next_of self.old.config (state_of self.old) ≡ PostMember sw block
            → self.new ≡ record self.old {
              entries = self.old.entries ++ Entry.Post block answer (option_copied given.entry) refused ops ∷ [];
            } }
    {
        self.kept.post_member(&self.config, block, answer, given);
        add_post(&mut self.history, block, answer, given, refused, ops);
    }
}

// What is done with a member.
fn member_kind(sweep: &Option<PendingSweep>) -> JobKind
    ensures { (c : Configuration) (sw : MachineSweep) → AreSweeps c sweep.now (Some sw) → result ≡ member_kind sw.writes }
{
    match sweep {
        Some(sweep) if sweep.members.writes() => JobKind::Write,
        _ => JobKind::Read,
    }
}
