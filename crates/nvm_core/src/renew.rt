// A new history over the same device.
ghost use Rattle.std.specs.Prelude.{◌≡◌, ◌↔◌, IsTrue, true};
ghost use Rattle.nvm_laws.specs.memif.Trials.{Lasts};
ghost use Rattle.nvm_laws.specs.Halves.{IsAtRest};
ghost use Rattle.nvm_core.specs.Renewal.{Renews, RenewalKeeps};

use crate::{Stack, room_for};
use nvm_laws::memif::{MemDevice, MemStatus};
use nvm_laws::{FoundAnswer, History, NextEntry, SyncCalls};
use std::alloc::Global;

/// What became of a new history: it began with its start-up, or that failed by a counted fault, and this is the history so far;
/// a job is pending or the device is at work; or no memory was found.
#[derive(Drop)]
pub enum Renewed {
    Ready { history: History },
    Failed { history: History },
    Busy,
    Memory,
}

impl<D: MemDevice, C: SyncCalls + Drop> Stack<D, C> {
    /// Whether nothing is pending and nothing is open at the device: a turn would answer `Idle`, or `Off` while the power is off.
    pub fn is_at_rest(&self) -> bool
        requires ready { self.now.ready ≡ true }
        ensures { IsTrue result ↔ IsAtRest self.now.desk (D.told self.now.device) }
    {
        if self.in_hand() {
            return false;
        }
        match self.front.desk.next() {
            NextEntry::Nothing => self.driver.device.status() == MemStatus::Idle,
            _ => false,
        }
    }

    /// Hands the history out at an idle moment, and begins a new one by a start-up over the same device. The marks stay: what the
    /// new history begins with is allowed by the one that was handed out, and not older than its last acknowledged marks. All else
    /// begins anew, as at each start-up: statuses, data indices, locks, RAM and the numbers of the entries. At `Busy` and `Memory`
    /// nothing changed; at `Failed` no turn comes until a `restart` answers Ready.
    pub fn renew(&mut self, alloc: Global) -> Renewed
        requires ready { self.old.ready ≡ true }
        ensures renews { Renews D.told result self.old self.new }
        ensures keeps { RenewalKeeps result self.old.desk self.old.hand (D.told self.old.device) (D.clock self.old.device) self.new.desk (D.told self.new.device) }
        ensures lasts { Lasts (D.told self.old.device) (D.clock self.old.device) (D.told self.new.device) (D.clock self.new.device) }
    {
        if !self.is_at_rest() {
            return Renewed::Busy;
        }
        let Ok(room) = room_for(alloc, &self.front.desk) else {
            return Renewed::Memory;
        };
        let Ok(history) = self.front.desk.hand_out(alloc) else {
            return Renewed::Memory;
        };
        self.driver.hand = None;
        self.room = Some(room);
        self.ready = false;
        match self.start_in() {
            FoundAnswer::Ready => Renewed::Ready { history },
            FoundAnswer::Failed | FoundAnswer::NoRoom | FoundAnswer::Memory => {
                Renewed::Failed { history }
            }
        }
    }
}
