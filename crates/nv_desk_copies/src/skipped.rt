// Posts without a Pick.
ghost use Rattle.std.specs.Prelude.{◌≡◌, List, [], Some, None, true, false, length, IfSome};
ghost use Rattle.block_machine.specs.State.{Sweep as MachineSweep};
ghost use Rattle.block_machine.specs.Blocks.{desc_of};
ghost use Rattle.block_machine.specs.Results.{own_of, unpicked_result};
ghost use Rattle.block_machine.specs.Sweeps.{sweep_result};
ghost use Rattle.block_machine.specs.Next.{next_of, PostMember, EndSweep};
ghost use Rattle.ram_blocks.specs.Told.{Told};
ghost use Rattle.nv_desk.specs.nv_desk_state.Next.{IsNextEntry};
ghost use Rattle.nv_desk.specs.Desk.{state_of};
ghost use Rattle.nv_desk.specs.Picks.{lent_or};
ghost use Rattle.nv_desk.specs.AllBlocks.{MayFinish};
ghost use Rattle.nv_desk_copies.specs.Front.{StagesAll, AreSynchronized, CopiesStay};
ghost use Rattle.nv_desk_copies.specs.Posts.{MayPostSkipped, IsAtPost, IsPosted, IsPostedNext, answer_in};

use crate::Staging;
use crate::given::stage_given;
use crate::over::{End, hand_over};
use crate::staging::given_if;
use block_machine::nv_base::{GivenFrom, ReqResult};
use nv_desk::{Desk, NextEntry, lent_or};
use ram_blocks::SyncCalls;

/// The Post without a Pick that comes next, which is this: of a member of a request on all blocks, or of id 0.
#[tactic(auto, using(crate::proofs::Sizes::nothing_copied))]
pub fn post_skipped<C: SyncCalls>(
    desk: &mut Desk,
    staging: &mut Staging,
    next: NextEntry,
    ops: u64,
    copies: &mut C,
)
    requires may { MayPostSkipped desk.old ops }
    requires next { IsNextEntry next (next_of desk.old.config (state_of desk.old)) }
    requires staging { StagesAll desk.old.config staging.old }
    requires synchronized { AreSynchronized desk.old.config (C.told copies.old) }
    ensures posted { IsPostedNext (next_of desk.old.config (state_of desk.old)) ops desk.old desk.new (C.told copies.old) (C.told copies.new) }
    ensures room { staging.new.room ≡ staging.old.room }
    ensures stays { CopiesStay C.told C.is_store C.over copies.old copies.new }
{
    match next {
        NextEntry::PostMember { block } => post_member(desk, staging, block, ops, copies),
        NextEntry::EndSweep { result } => post_sweep(desk, result, ops),
        _ => {}
    }
}

// That of id 0.
fn post_sweep(desk: &mut Desk, answer: ReqResult, ops: u64)
    requires { MayFinish desk.old answer ops }
    ensures posted { (sw : MachineSweep) (told : List Told) → next_of desk.old.config (state_of desk.old) ≡ EndSweep sw
        → IsPosted (Unit {0}) 0 false (sweep_result sw, None) ops desk.old desk.new told told }
{
    desk.post_sweep(answer, ops);
}

// That of a member.
fn post_member<C: SyncCalls>(
    desk: &mut Desk,
    staging: &mut Staging,
    block: u16,
    ops: u64,
    copies: &mut C,
)
    requires may { IsAtPost desk.old block ops }
    requires staging { StagesAll desk.old.config staging.old }
    requires synchronized { AreSynchronized desk.old.config (C.told copies.old) }
    ensures posted { (sw : MachineSweep) → next_of desk.old.config (state_of desk.old) ≡ PostMember sw block
        → IsPosted (Unit {0}) block true (unpicked_result (own_of desk.old.config (state_of desk.old) block) sw.writes) ops desk.old desk.new (C.told copies.old) (C.told copies.new) }
    ensures room { staging.new.room ≡ staging.old.room }
    ensures stays { CopiesStay C.told C.is_store C.over copies.old copies.new }
{
    let end = unpicked(desk, staging, block);
    let bytes = lent_or(staging.bytes(), &[]);
    let (end, refused) = hand_over(desk.config(), bytes, block, true, end, copies);
    desk.post_member(block, end.answer, given_if(end.gives, bytes), refused, ops);
}

// What a member ends with that isn't picked: a WriteAll skips it, a ReadAll gives its defaults where it has some.
fn unpicked(desk: &Desk, staging: &mut Staging, block: u16) -> End
    requires staging { StagesAll desk.now.config staging.old }
    ensures answer { (sw : MachineSweep) → (state_of desk.now).sweep ≡ Some sw → answer_in result.answer result.gives (lent_or [] staging.new.bytes) ≡ unpicked_result (own_of desk.now.config (state_of desk.now) block) sw.writes }
    ensures whole { IfSome (answer_in result.answer result.gives (lent_or [] staging.new.bytes)).1 (λ x. length x ≡ (desc_of desk.now.config block).length) }
    ensures room { staging.new.room ≡ staging.old.room }
{
    if desk.sweep_writes() {
        return End {
            answer: ReqResult::BlockSkipped,
            gives: false,
        };
    }
    if stage_given(desk.config(), staging, block, 0, GivenFrom::Defaults, &[]) {
        End {
            answer: ReqResult::Restored,
            gives: true,
        }
    } else {
        End {
            answer: ReqResult::IntegrityFailed,
            gives: false,
        }
    }
}
