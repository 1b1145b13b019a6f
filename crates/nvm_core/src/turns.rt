// Turns.
ghost use Rattle.std.specs.Prelude.{◌≡◌, ◌≤◌, true};
ghost use Rattle.nvm_laws.specs.memif.Told.{faults_of};
ghost use Rattle.nvm_laws.specs.memif.Trials.{Lasts};
ghost use Rattle.nvm_laws.specs.Keeps.{StaysKept};
ghost use Rattle.nvm_laws.specs.DueCalls.{TurnServesDue};
ghost use Rattle.nvm_laws.specs.Traits.{KeepsSeal, TakesKeptInHand};
ghost use Rattle.nvm_core.specs.Turns.{Turns};
ghost use Rattle.nvm_core.specs.Work.{Lowers, TakesTurns};
ghost use Rattle.nvm_core.specs.Due.{now_of};
ghost use Rattle.nvm_core.specs.Paying.{TurnPays};

use crate::Stack;
use nvm_laws::memif::MemDevice;
use nvm_laws::{Act, SyncCalls, Turned};

impl<D: MemDevice, C: SyncCalls + Drop> Stack<D, C> {
    /// One turn of the main function: the first of what is to be done, and nothing else. It makes at most one turn of the
    /// device, adds at most one entry, and takes no memory.
    pub fn turn(&mut self) -> Turned
        requires { self.old.ready ≡ true }
        ensures turns { Turns D.told D.clock C.told C.is_store C.looked result self.old self.new }
        ensures keeps { StaysKept self.old.desk self.old.hand (D.told self.old.device) (D.clock self.old.device) self.new.desk self.new.hand (D.told self.new.device) (D.clock self.new.device) }
        ensures counted { faults_of (D.told self.old.device) ≤ faults_of (D.told self.new.device) }
        ensures lowers { Lowers D.told result self.old self.new }
        ensures left { TakesTurns D.told result self.old self.new }
        ensures lasts { Lasts (D.told self.old.device) (D.clock self.old.device) (D.told self.new.device) (D.clock self.new.device) }
        ensures pays { TurnPays D.told D.clock self.old self.new }
        ensures due { TurnServesDue (now_of D.told self.old) (now_of D.told self.new) }
        ensures seals { KeepsSeal (D.told self.old.device) (D.clock self.old.device) (D.told self.new.device) (D.clock self.new.device) }
        ensures kept { TakesKeptInHand self.old.desk (D.told self.old.device) (D.told self.new.device) (D.clock self.new.device) }
    {
        match self.driver.first_half(&mut self.front) {
            Act::Ended(turned) => {
                let _status = self.driver.device.status();
                turned
            }
            Act::Device => {
                let _status = self.driver.device.status();
                let turned = self.driver.device_turn(&mut self.front.desk);
                let _blocks = self.front.desk.config().blocks();
                let _count = self.front.desk.len();
                turned
            }
        }
    }
}
