// The first half of a turn: all but the device's turn.
ghost use Rattle.std.specs.Prelude.{◌≡◌, true};
ghost use Rattle.nvm_laws.specs.memif.Clock.{SameClock};
ghost use Rattle.nvm_laws.specs.nv_desk.Desk.{state_of};
ghost use Rattle.nvm_laws.specs.nv_desk.Picks.{IsInterruption};
ghost use Rattle.nvm_laws.specs.nv_desk_copies.Front.{StagesAll, AreSynchronized, CopiesStay};
ghost use Rattle.nvm_laws.specs.Work.{program_in_hand};
ghost use Rattle.nvm_laws.specs.Ties.{IsTied};
ghost use Rattle.nvm_laws.specs.Keeps.{StaysKept};
ghost use Rattle.nvm_core.specs.Stack.{stack_of};
ghost use Rattle.nvm_core.specs.Turns.{IsFirstHalf};
ghost use Rattle.nvm_core.specs.Lowers.{HalfLeft};
ghost use Rattle.nvm_core.specs.Reads.{NotesReads};

use crate::Driver;
use crate::choice::{Case, case_of};
use crate::pick::{interrupt, pick};
use crate::post::{post, skip};
use crate::work::{go_on, is_at_work};
use nvm_laws::memif::MemDevice;
use nvm_laws::{Act, Front, SyncCalls, Turned};

impl<D: MemDevice, C: SyncCalls + Drop> Driver<D, C> {
    /// Does the first of these: where the power is off, nothing; the Post of a finished job; the Pick of an immediate job over
    /// a standard one; the start of the next operation of the job in hand; the Pick, or the Post without a Pick, that comes
    /// next. It makes no turn of the device, adds at most one entry, and takes no memory.
    #[tactic(auto, using(nvm_laws::proofs::memif::Turning::same_clock, nvm_laws::proofs::Keeping::stays_still))]
    pub fn first_half(&mut self, front: &mut Front) -> Act
        requires tied { IsTied front.old.desk self.old.hand (D.told self.old.device) }
        requires staging { StagesAll front.old.desk.config front.old.staging }
        requires synchronized { AreSynchronized front.old.desk.config (C.told self.old.copies) }
        ensures half { IsFirstHalf D.told C.told C.is_store C.looked result (stack_of front.old.desk self.old) (stack_of front.new.desk self.new) }
        ensures first { result ≡ Act.Device → ¬ IsInterruption front.old.desk }
        ensures off { result ≡ Act.Ended Turned.Off → (state_of front.old.desk).off ≡ true }
        ensures clock { SameClock (D.clock self.old.device) (D.clock self.new.device) }
        ensures unread { NotesReads front.old.desk front.new.desk front.old.unread front.new.unread }
        ensures room { front.new.staging.room ≡ front.old.staging.room }
        ensures synchronized { AreSynchronized front.old.desk.config (C.told self.new.copies) }
        ensures stays { CopiesStay C.told C.is_store C.over self.old.copies self.new.copies }
        ensures keeps { StaysKept front.old.desk self.old.hand (D.told self.old.device) (D.clock self.old.device) front.new.desk self.new.hand (D.told self.new.device) (D.clock self.new.device) }
        ensures left { HalfLeft result (program_in_hand self.old.hand) (D.told self.old.device) (program_in_hand self.new.hand) (D.told self.new.device) }
    {
        match case_of(&front.desk, &self.hand) {
            Case::Off => Act::Ended(Turned::Off),
            Case::Post => {
                post(front, &mut self.hand, &self.device, &mut self.copies);
                Act::Ended(Turned::Posted)
            }
            Case::Interrupt => {
                interrupt(front, &mut self.hand, &mut self.device, &mut self.copies);
                Act::Ended(Turned::Picked)
            }
            Case::Work => {
                go_on(&front.desk, &mut self.hand, &mut self.device);
                Act::Device
            }
            Case::Pick { next } => {
                pick(front, next, &mut self.hand, &self.device, &mut self.copies);
                Act::Ended(Turned::Picked)
            }
            Case::Skip { next } => {
                skip(front, next, &self.hand, &self.device, &mut self.copies);
                Act::Ended(Turned::Posted)
            }
            Case::Rest => {
                if is_at_work(&self.device) {
                    Act::Device
                } else {
                    Act::Ended(Turned::Idle)
                }
            }
        }
    }
}
