// The operation of the job in hand.
ghost use Rattle.std.specs.Prelude.{◌≡◌, ◌≢◌, ◌&&◌, ◌++◌, ◌∷◌, [], not, Some};
ghost use Rattle.nvm_laws.specs.memif.Told.{DeviceTold, is_open, ops_of};
ghost use Rattle.nvm_laws.specs.nvm_device_laws.Turn.{settled_by};
ghost use Rattle.nvm_laws.specs.nv_desk.Desk.{state_of};
ghost use Rattle.nvm_laws.specs.nv_desk.Driver.{MayAdd, mark_now};
ghost use Rattle.nvm_laws.specs.Turns.{AddsBy, hand_by};
ghost use Rattle.nvm_core.specs.BehindDevice.{IsAtWork};

use nvm_laws::memif::{JobResult, MemDevice};
use nvm_laws::nvm_figures::outcome_of;
use nvm_laws::{Desk, Entry, Hand, Instance, JobStep, Outcome};

/// Ends the operation of the job in hand, if the device's turn ended it: a Wrote is added where it wrote its mark.
pub(crate) fn end_operation<D: MemDevice>(desk: &mut Desk, hand: &mut Hand, device: &D)
    requires { (old : DeviceTold) × IsAtWork desk.old hand.old old (D.told device.now) }
    ensures adds { (old : DeviceTold) → IsAtWork desk.old hand.old old (D.told device.now)
        → AddsBy (settled_by old.stand (D.told device.now).stand (ops_of (D.told device.now))) desk.old desk.new }
    ensures hand { (old : DeviceTold) → IsAtWork desk.old hand.old old (D.told device.now)
        → Some hand.new ≡ hand_by old.stand (D.told device.now).stand (Some hand.old) }
{
    let _blocks = desk.config().blocks();
    if !has_ended(hand, device) {
        return;
    }
    let JobStep::Device { op, instance } = hand.step() else {
        return;
    };
    let outcome = outcome_of(op, device.result());
    add_wrote(desk, instance, outcome, device);
    hand.end(outcome);
}

// The device was at an operation of the job in hand, and has no job open any more.
fn has_ended<D: MemDevice>(hand: &Hand, device: &D) -> bool
    ensures { result ≡ (hand.now.started && not (is_open (D.told device.now).stand)) }
{
    hand.is_started() && device.result() != JobResult::JobPending
}

// The Wrote of an operation that wrote its mark.
fn add_wrote<D: MemDevice>(desk: &mut Desk, instance: Instance, outcome: Outcome, device: &D)
    requires { outcome ≡ Outcome.Wrote → MayAdd desk.old (Entry.Wrote instance (mark_now (state_of desk.old)) (ops_of (D.told device.now))) }
    ensures wrote { outcome ≡ Outcome.Wrote → desk.new ≡ record desk.old { entries = desk.old.entries ++ Entry.Wrote instance (mark_now (state_of desk.old)) (ops_of (D.told device.now)) ∷ [] } }
    ensures other { outcome ≢ Outcome.Wrote → desk.new ≡ desk.old }
{
    if outcome == Outcome::Wrote {
        desk.wrote(instance, device.ops());
    }
}
