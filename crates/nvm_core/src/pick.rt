// The Picks of a turn.
ghost use Rattle.std.specs.Prelude.{◌≡◌, ◌<◌, Option, false};
ghost use Rattle.nvm_laws.specs.memif.Told.{DeviceTold, IfElse, is_open, ops_of};
ghost use Rattle.nvm_laws.specs.memif.Clock.{SameClock};
ghost use Rattle.nvm_laws.specs.memif.Calls.{IsCanceled};
ghost use Rattle.nvm_laws.specs.block_machine.Blocks.{job_block, kind_of};
ghost use Rattle.nvm_laws.specs.block_machine.Results.{took_none};
ghost use Rattle.nvm_laws.specs.block_machine.Next.{next_of};
ghost use Rattle.nvm_laws.specs.nv_desk.nv_desk_state.Next.{IsNextEntry};
ghost use Rattle.nvm_laws.specs.nv_desk.Desk.{state_of};
ghost use Rattle.nvm_laws.specs.nv_desk.Picks.{IsInterruption};
ghost use Rattle.nvm_laws.specs.nv_desk_copies.Front.{StagesAll, AreSynchronized, CopiesStay};
ghost use Rattle.nvm_laws.specs.nv_desk_copies.Takes.{copies_out_next, IsCopied};
ghost use Rattle.nvm_laws.specs.job_progress.Hand.{HandState};
ghost use Rattle.nvm_laws.specs.Work.{program_in_hand, stack_work};
ghost use Rattle.nvm_laws.specs.Ties.{IsTied};
ghost use Rattle.nvm_laws.specs.Turns.{hand_in};
ghost use Rattle.nvm_laws.specs.Keeps.{StaysKept};
ghost use Rattle.nvm_laws.specs.Halves.{AddsPick};
ghost use Rattle.nvm_core.specs.Choice.{HasHand, IsPickable, begun_by};
ghost use Rattle.nvm_core.specs.Lowers.{IsWithinMost};
ghost use Rattle.nvm_core.specs.Reads.{NotesReads};
ghost use Rattle.nvm_core.specs.OperationStart.{LeavesDevice};

use nvm_laws::memif::MemDevice;
use nvm_laws::{BlockDesc, Desk, Front, Hand, Job, NextEntry, SyncCalls};

/// An immediate job is picked over the standard one in hand.
pub(crate) fn interrupt<D: MemDevice, C: SyncCalls>(
    front: &mut Front,
    hand: &mut Option<Hand>,
    device: &mut D,
    copies: &mut C,
)
    requires tied { IsTied front.old.desk hand.old (D.told device.old) }
    requires held { HasHand false front.old.desk hand.old }
    requires may { IsInterruption front.old.desk }
    requires staging { StagesAll front.old.desk.config front.old.staging }
    requires synchronized { AreSynchronized front.old.desk.config (C.told copies.old) }
    ensures picks { AddsPick (λ block t. IsCopied (λ n x. C.is_store copies.new block n x × C.looked copies.old copies.new block n) front.old.desk.config block (C.told copies.old) (C.told copies.new)
        (copies_out_next front.old.desk.config (next_of front.old.desk.config (state_of front.old.desk))) t)
        (ops_of (D.told device.new)) front.old.desk front.new.desk }
    ensures tied { IsTied front.new.desk hand.new (D.told device.new) }
    ensures unread { NotesReads front.old.desk front.new.desk front.old.unread front.new.unread }
    ensures room { front.new.staging.room ≡ front.old.staging.room }
    ensures synchronized { AreSynchronized front.old.desk.config (C.told copies.new) }
    ensures stays { CopiesStay C.told C.is_store C.over copies.old copies.new }
    ensures device { LeavesDevice (D.told device.old) (D.told device.new) }
    ensures clock { SameClock (D.clock device.old) (D.clock device.new) }
    ensures keeps { StaysKept front.old.desk hand.old (D.told device.old) (D.clock device.old) front.new.desk hand.new (D.told device.new) (D.clock device.new) }
    ensures lowers { stack_work front.new.desk hand.new (D.told device.new) < stack_work front.old.desk hand.old (D.told device.old) }
    ensures left { IsWithinMost (program_in_hand hand.new) (D.told device.new) }
    ensures hand { hand.new ≡ hand_in front.new.desk }
    ensures cancels { IfElse (is_open (D.told device.old).stand) (IsCanceled (D.told device.old) (D.told device.new)) (D.told device.new ≡ D.told device.old) }
{
    device.cancel();
    pick(front, NextEntry::PickJob, hand, device, copies);
}

/// The Pick that comes next, which is this, at a device that has no job open.
pub(crate) fn pick<D: MemDevice, C: SyncCalls>(
    front: &mut Front,
    next: NextEntry,
    hand: &mut Option<Hand>,
    device: &D,
    copies: &mut C,
)
    requires may { IsPickable front.old.desk (D.told device.now) }
    requires next { IsNextEntry next (next_of front.old.desk.config (state_of front.old.desk)) }
    requires staging { StagesAll front.old.desk.config front.old.staging }
    requires synchronized { AreSynchronized front.old.desk.config (C.told copies.old) }
    ensures picks { AddsPick (λ block t. IsCopied (λ n x. C.is_store copies.new block n x × C.looked copies.old copies.new block n) front.old.desk.config block (C.told copies.old) (C.told copies.new)
        (copies_out_next front.old.desk.config (next_of front.old.desk.config (state_of front.old.desk))) t)
        (ops_of (D.told device.now)) front.old.desk front.new.desk }
    ensures tied { IsTied front.new.desk hand.new (D.told device.now) }
    ensures unread { NotesReads front.old.desk front.new.desk front.old.unread front.new.unread }
    ensures room { front.new.staging.room ≡ front.old.staging.room }
    ensures synchronized { AreSynchronized front.old.desk.config (C.told copies.new) }
    ensures stays { CopiesStay C.told C.is_store C.over copies.old copies.new }
    ensures keeps { (held : Option HandState) → StaysKept front.old.desk held (D.told device.now) (D.clock device.now) front.new.desk hand.new (D.told device.now) (D.clock device.now) }
    ensures lowers { (held : Option HandState) (old : DeviceTold) → stack_work front.new.desk hand.new (D.told device.now) < stack_work front.old.desk held old }
    ensures left { IsWithinMost (program_in_hand hand.new) (D.told device.now) }
    ensures hand { hand.new ≡ hand_in front.new.desk }
{
    let _status = device.status();
    front.pick(next, device.ops(), copies);
    *hand = hand_of(&front.desk);
    let _blocks = front.desk.config().blocks();
    let _count = front.desk.len();
}

// The hand of the job that was picked, if one was.
fn hand_of(desk: &Desk) -> Option<Hand>
    ensures { result ≡ hand_in desk.now }
{
    let job = desk.hand()?;
    let desc = desk.desc_in_hand()?;
    Some(begun(desc, job, desk.index(job.block())))
}

// That of a job on a block, at its data index.
fn begun(desc: &BlockDesc, job: &Job, index: u8) -> Hand
    ensures { result ≡ begun_by (took_none job.now.taken) desc.now (job_block job.now) index (kind_of job.now) }
{
    match job.result_without_content() {
        Some(answer) => Hand::finished(desc, job.block(), index, job.kind(), answer),
        None => Hand::begin(desc, job.block(), index, job.kind()),
    }
}
