// The second half of a turn.
ghost use Rattle.std.specs.Prelude.{◌≡◌};
ghost use Rattle.nvm_laws.specs.memif.Told.{DeviceTold, ops_of};
ghost use Rattle.nvm_laws.specs.memif.declared.answer.DeviceTurn.TheVariants as turn;
ghost use Rattle.nvm_laws.specs.nvm_device_laws.Turn.{settled_by};
ghost use Rattle.nvm_laws.specs.Ties.{IsTied};
ghost use Rattle.nvm_laws.specs.Turns.{AddsBy, hand_by};
ghost use Rattle.nvm_core.specs.BehindDevice.{IsBehindTurn, TakesTurn};

use crate::Driver;
use crate::operation_end::end_operation;
use nvm_laws::memif::{DeviceTurn, MemDevice};
use nvm_laws::{Desk, Hand, SyncCalls, Turned};

impl<D: MemDevice, C: SyncCalls + Drop> Driver<D, C> {
    /// Takes the answer of the device's turn: adds a Wrote where the job in hand wrote its mark, or an Off where the power went
    /// off. It changes neither the device nor the copies, and takes no memory.
    pub fn second_half(&mut self, desk: &mut Desk, turned: DeviceTurn) -> Turned
        requires { (old : DeviceTold) × IsBehindTurn turned desk.old self.old.hand old (D.told self.old.device) }
        ensures takes { TakesTurn turned result desk.old desk.new self.old.hand self.new.hand (D.told self.old.device) }
        ensures tied { IsTied desk.new self.new.hand (D.told self.old.device) }
        ensures only { self.new ≡ record self.old { hand = self.new.hand } }
    {
        let _blocks = desk.config().blocks();
        take(desk, &mut self.hand, &self.device, turned)
    }
}

// Adds the entry that the device's turn asks for.
fn take<D: MemDevice>(
    desk: &mut Desk,
    hand: &mut Option<Hand>,
    device: &D,
    turned: DeviceTurn,
) -> Turned
    requires { (old : DeviceTold) × IsBehindTurn turned desk.old hand.old old (D.told device.now) }
    ensures { TakesTurn turned result desk.old desk.new hand.old hand.new (D.told device.now) }
{
    match turned {
        DeviceTurn::Off => {
            desk.off(device.ops());
            Turned::Off
        }
        DeviceTurn::Idle => Turned::Idle,
        DeviceTurn::Worked => {
            go_on(desk, hand, device);
            Turned::Worked
        }
    }
}

// The job in hand goes on, if there is one.
fn go_on<D: MemDevice>(desk: &mut Desk, hand: &mut Option<Hand>, device: &D)
    requires { (old : DeviceTold) × IsBehindTurn turn.Worked desk.old hand.old old (D.told device.now) }
    ensures adds { (old : DeviceTold) → IsBehindTurn turn.Worked desk.old hand.old old (D.told device.now)
        → AddsBy (settled_by old.stand (D.told device.now).stand (ops_of (D.told device.now))) desk.old desk.new }
    ensures hand { (old : DeviceTold) → IsBehindTurn turn.Worked desk.old hand.old old (D.told device.now)
        → hand.new ≡ hand_by old.stand (D.told device.now).stand hand.old }
{
    let Some(hand) = hand else {
        return;
    };
    end_operation(desk, hand, device);
}
