// The job in hand at the device.
ghost use Rattle.std.specs.Prelude.{◌≡◌, ◌≤◌, false, true, not, IfSome, Some};
ghost use Rattle.nvm_laws.specs.memif.Told.{is_open, nothing_open};
ghost use Rattle.nvm_laws.specs.memif.Clock.{SameClock};
ghost use Rattle.nvm_laws.specs.block_config.Lengths.{lengths_of};
ghost use Rattle.nvm_laws.specs.nv_desk.Desk.{state_of};
ghost use Rattle.nvm_laws.specs.job_progress.Hand.{is_finished};
ghost use Rattle.nvm_laws.specs.job_progress.JobInHand.{IsInHand};
ghost use Rattle.nvm_laws.specs.nvm_figures.Left.{stack_left};
ghost use Rattle.nvm_laws.specs.Work.{program_in_hand, stack_work};
ghost use Rattle.nvm_laws.specs.AtDevice.{GoesOn};
ghost use Rattle.nvm_laws.specs.Ties.{IsTied};
ghost use Rattle.nvm_laws.specs.Keeps.{StaysKept};
ghost use Rattle.nvm_core.specs.Choice.{HasHand};
ghost use Rattle.nvm_core.specs.OperationStart.{LeavesDevice};

use crate::operation_start::start_on;
use nvm_laws::memif::{MemDevice, MemStatus};
use nvm_laws::{Desk, Hand, JobStep};

/// The job in hand goes on: its next operation is open at the device.
pub(crate) fn go_on<D: MemDevice>(desk: &Desk, hand: &mut Option<Hand>, device: &mut D)
    requires tied { IsTied desk.now hand.old (D.told device.old) }
    requires held { HasHand false desk.now hand.old }
    ensures open { is_open (D.told device.new).stand ≡ true }
    ensures tied { IsTied desk.now hand.new (D.told device.new) }
    ensures started { IfSome hand.new (λ h. h.started ≡ true) }
    ensures device { LeavesDevice (D.told device.old) (D.told device.new) }
    ensures clock { SameClock (D.clock device.old) (D.clock device.new) }
    ensures keeps { StaysKept desk.now hand.old (D.told device.old) (D.clock device.old) desk.now hand.new (D.told device.new) (D.clock device.new) }
    ensures lowers { stack_work desk.now hand.new (D.told device.new) ≤ stack_work desk.now hand.old (D.told device.old) }
    ensures left { stack_left (program_in_hand hand.new) (D.told device.new) ≤ stack_left (program_in_hand hand.old) (D.told device.old) }
    ensures goes { GoesOn hand.old (D.told device.old) hand.new (D.told device.new) }
{
    let Some(hand) = hand else {
        unreachable!();
    };
    go_on_with(desk, hand, device);
}

// The same of its hand.
#[tactic(auto, using(nvm_laws::proofs::memif::Turning::same_clock, nvm_laws::proofs::Keeping::stays_still))]
fn go_on_with<D: MemDevice>(desk: &Desk, hand: &mut Hand, device: &mut D)
    requires paired { IsInHand desk.now.config (state_of desk.now) hand.old (D.told device.old) }
    requires unfinished { is_finished hand.old.step ≡ false }
    requires numbers { (D.told device.old).fixed.numbers ≡ lengths_of desk.now.config }
    requires up { (D.told device.old).started ≡ true }
    ensures open { is_open (D.told device.new).stand ≡ true }
    ensures paired { IsInHand desk.now.config (state_of desk.now) hand.new (D.told device.new) }
    ensures started { hand.new.started ≡ true }
    ensures device { LeavesDevice (D.told device.old) (D.told device.new) }
    ensures clock { SameClock (D.clock device.old) (D.clock device.new) }
    ensures keeps { StaysKept desk.now (Some hand.old) (D.told device.old) (D.clock device.old) desk.now (Some hand.new) (D.told device.new) (D.clock device.new) }
    ensures lowers { stack_work desk.now (Some hand.new) (D.told device.new) ≤ stack_work desk.now (Some hand.old) (D.told device.old) }
    ensures left { stack_left (Some hand.new.program) (D.told device.new) ≤ stack_left (Some hand.old.program) (D.told device.old) }
    ensures goes { GoesOn (Some hand.old) (D.told device.old) (Some hand.new) (D.told device.new) }
{
    let _blocks = desk.config().blocks();
    let _desc = desk.desc_in_hand();
    if hand.is_started() {
        return;
    }
    let JobStep::Device { op, instance } = hand.step() else {
        unreachable!();
    };
    let Ok(()) = start_on(desk, device, op, instance) else {
        // A device that is up refuses no operation that a job in hand names.
        unreachable!();
    };
    hand.start();
    let _status = device.status();
}

/// Whether the device, which has no job open, is at work of its own.
pub(crate) fn is_at_work<D: MemDevice>(device: &D) -> bool
    requires up { (D.told device.now).started ≡ true }
    requires closed { is_open (D.told device.now).stand ≡ false }
    ensures { nothing_open (D.told device.now) ≡ not result }
{
    device.status() == MemStatus::BusyInternal
}
