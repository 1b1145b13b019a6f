// A turn of the device.
ghost use Rattle.std.specs.Prelude.{◌≡◌, IfSome, false, true};
ghost use Rattle.nvm_laws.specs.memif.Told.{ops_of};
ghost use Rattle.nvm_laws.specs.nv_desk.Desk.{state_of};
ghost use Rattle.nvm_laws.specs.Ties.{IsTied};
ghost use Rattle.nvm_laws.specs.Keeps.{StaysKept};
ghost use Rattle.nvm_laws.specs.Turns.{AddsBy, hand_by};
ghost use Rattle.nvm_core.specs.BehindDevice.{TurnsDevice, asked_by};

use crate::Driver;
use nvm_laws::memif::MemDevice;
use nvm_laws::{Desk, SyncCalls, Turned};

impl<D: MemDevice, C: SyncCalls + Drop> Driver<D, C> {
    /// A turn of the device with the second half behind it, where the machine's power is on and the device is at the operation of the
    /// job in hand, if one is in hand. It takes no memory.
    pub fn device_turn(&mut self, desk: &mut Desk) -> Turned
        requires tied { IsTied desk.old self.old.hand (D.told self.old.device) }
        requires on { (state_of desk.old).off ≡ false }
        requires started { IfSome self.old.hand (λ h. h.started ≡ true) }
        ensures turns { TurnsDevice result (D.told self.old.device) (D.clock self.old.device) (D.told self.new.device) (D.clock self.new.device) }
        ensures adds { AddsBy (asked_by result (D.told self.old.device).stand (D.told self.new.device).stand (ops_of (D.told self.new.device))) desk.old desk.new }
        ensures hand { self.new.hand ≡ hand_by (D.told self.old.device).stand (D.told self.new.device).stand self.old.hand }
        ensures tied { IsTied desk.new self.new.hand (D.told self.new.device) }
        ensures copies { self.new.copies ≡ self.old.copies }
        ensures keeps { StaysKept desk.old self.old.hand (D.told self.old.device) (D.clock self.old.device) desk.new self.new.hand (D.told self.new.device) (D.clock self.new.device) }
    {
        let turned = self.device.turn();
        self.second_half(desk, turned)
    }
}
