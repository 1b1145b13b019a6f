// The Posts of a turn.
ghost use Rattle.std.specs.Prelude.{◌≡◌, ◌≤◌, ◌<◌, ◌+◌, Some, None, true};
ghost use Rattle.nvm_laws.specs.nv_base.declared.job.JobStep.TheVariants as step;
ghost use Rattle.nvm_laws.specs.memif.Told.{ops_of};
ghost use Rattle.nvm_laws.specs.nv_desk.Desk.{state_of};
ghost use Rattle.nvm_laws.specs.nv_desk_copies.Front.{StagesAll, AreSynchronized, CopiesStay};
ghost use Rattle.nvm_laws.specs.job_progress.Hand.{HandState, is_finished};
ghost use Rattle.nvm_laws.specs.job_progress.JobInHand.{HandFits};
ghost use Rattle.nvm_laws.specs.nvm_figures.Left.{stack_left};
ghost use Rattle.nvm_laws.specs.Work.{program_in_hand, stack_work};
ghost use Rattle.nvm_laws.specs.Ties.{IsTied};
ghost use Rattle.nvm_laws.specs.Keeps.{StaysKept};
ghost use Rattle.nvm_laws.specs.Halves.{AddsPost};
ghost use Rattle.nvm_core.specs.declared.choice.Case.TheVariants as case;
ghost use Rattle.nvm_core.specs.Choice.{HasHand, HasNone};
ghost use Rattle.nvm_core.specs.Lowers.{posts_left};
ghost use Rattle.nvm_core.specs.Reads.{NotesReads};

use nvm_laws::memif::MemDevice;
use nvm_laws::{Front, GivenFrom, Hand, JobStep, NextEntry, ReqResult, SyncCalls};

/// The Post of a finished job.
pub(crate) fn post<D: MemDevice, C: SyncCalls>(
    front: &mut Front,
    hand: &mut Option<Hand>,
    device: &D,
    copies: &mut C,
)
    requires tied { IsTied front.old.desk hand.old (D.told device.now) }
    requires finished { HasHand true front.old.desk hand.old }
    requires staging { StagesAll front.old.desk.config front.old.staging }
    requires synchronized { AreSynchronized front.old.desk.config (C.told copies.old) }
    ensures posts { AddsPost (HandFits front.old.desk.config (state_of front.old.desk) hand.old (D.told device.now)) (ops_of (D.told device.now)) front.old.desk front.new.desk (C.told copies.old) (C.told copies.new) }
    ensures tied { IsTied front.new.desk hand.new (D.told device.now) }
    ensures unread { NotesReads front.old.desk front.new.desk front.old.unread front.new.unread }
    ensures room { front.new.staging.room ≡ front.old.staging.room }
    ensures synchronized { AreSynchronized front.old.desk.config (C.told copies.new) }
    ensures stays { CopiesStay C.told C.is_store C.over copies.old copies.new }
    ensures keeps { StaysKept front.old.desk hand.old (D.told device.now) (D.clock device.now) front.new.desk hand.new (D.told device.now) (D.clock device.now) }
    ensures lowers { stack_work front.new.desk hand.new (D.told device.now) < stack_work front.old.desk hand.old (D.told device.now) }
    ensures left { stack_left (program_in_hand hand.new) (D.told device.now) + posts_left (program_in_hand hand.old) ≤ stack_left (program_in_hand hand.old) (D.told device.now) }
    ensures hand { hand.new ≡ None }
{
    let _status = device.status();
    let (answer, source) = end_of(hand);
    front.post(answer, source, device.take_data(), device.ops(), copies);
    *hand = None;
    let _count = front.desk.len();
}

// What a finished job ended with.
fn end_of(hand: &Option<Hand>) -> (ReqResult, GivenFrom)
    ensures { (h : HandState) → hand.now ≡ Some h → is_finished h.step ≡ true → h.step ≡ step.Ended result.0 result.1 }
{
    let Some(hand) = hand else {
        return (ReqResult::NotOk, GivenFrom::Nothing);
    };
    match hand.step() {
        JobStep::Ended { result, source } => (result, source),
        JobStep::Device { .. } => (ReqResult::NotOk, GivenFrom::Nothing),
    }
}

/// The Post without a Pick that comes next, which is this.
pub(crate) fn skip<D: MemDevice, C: SyncCalls>(
    front: &mut Front,
    next: NextEntry,
    hand: &Option<Hand>,
    device: &D,
    copies: &mut C,
)
    requires tied { IsTied front.old.desk hand.now (D.told device.now) }
    requires none { HasNone (case.Skip next) front.old.desk hand.now }
    requires staging { StagesAll front.old.desk.config front.old.staging }
    requires synchronized { AreSynchronized front.old.desk.config (C.told copies.old) }
    ensures posts { AddsPost (HandFits front.old.desk.config (state_of front.old.desk) hand.now (D.told device.now)) (ops_of (D.told device.now)) front.old.desk front.new.desk (C.told copies.old) (C.told copies.new) }
    ensures tied { IsTied front.new.desk hand.now (D.told device.now) }
    ensures unread { NotesReads front.old.desk front.new.desk front.old.unread front.new.unread }
    ensures room { front.new.staging.room ≡ front.old.staging.room }
    ensures synchronized { AreSynchronized front.old.desk.config (C.told copies.new) }
    ensures stays { CopiesStay C.told C.is_store C.over copies.old copies.new }
    ensures keeps { StaysKept front.old.desk hand.now (D.told device.now) (D.clock device.now) front.new.desk hand.now (D.told device.now) (D.clock device.now) }
    ensures lowers { stack_work front.new.desk hand.now (D.told device.now) < stack_work front.old.desk hand.now (D.told device.now) }
    ensures left { stack_left (program_in_hand hand.now) (D.told device.now) + posts_left (program_in_hand hand.now) ≤ stack_left (program_in_hand hand.now) (D.told device.now) }
{
    let _status = device.status();
    front.post_skipped(next, device.ops(), copies);
    let _count = front.desk.len();
}
