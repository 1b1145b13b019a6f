// The value under the lock.
ghost use Rattle.std.specs.Prelude.{◌≡◌, ◌++◌, ◌∷◌, ◌≤◌, ◌↔◌, [], List, length, true, false, Bool, IfOk, OnErr, IsErrOf, None, Some, IsTrue, option_copied, option_map};
ghost use Rattle.nvm_core.specs.nv_base.declared.entry.Entry.TheVariants as Entry;
ghost use Rattle.nvm_core.specs.nv_desk.declared.ask.AskFault.TheVariants as AskFault;
ghost use Rattle.nvm_core.specs.memif.Told.{DeviceTold};
ghost use Rattle.nvm_core.specs.memif.Clock.{SameClock};
ghost use Rattle.nvm_core.specs.block_machine.Words.{Entry as MachineEntry};
ghost use Rattle.nvm_core.specs.block_machine.StartUp.{at_first};
ghost use Rattle.nvm_core.specs.block_machine.Blocks.{asked_store, job_block};
ghost use Rattle.nvm_core.specs.block_machine.Next.{next_in};
ghost use Rattle.nvm_core.specs.block_machine.Reply.{fits};
ghost use Rattle.nvm_core.specs.block_machine.Legal.{HasStore};
ghost use Rattle.nvm_core.specs.nv_desk.Desk.{state_of};
ghost use Rattle.nvm_core.specs.nv_desk.Latest.{last_of};
ghost use Rattle.nvm_shared.specs.StatusWords.{picked_by, told_by};
ghost use Rattle.nvm_shared.specs.Written.{AreWritten};
ghost use Rattle.nvm_shared.specs.Behind.{HandIsPending};
ghost use Rattle.nvm_core.specs.nv_desk_copies.Front.{AreSynchronized, StagesAll};
ghost use Rattle.nvm_core.specs.job_progress.JobInHand.{HandFits};
ghost use Rattle.nvm_core.specs.nvm_laws.Ties.{IsTied};
ghost use Rattle.nvm_core.specs.nvm_laws.Keeps.{StaysKept};
ghost use Rattle.nvm_core.specs.block_config.Rules.{IsLegalConfig};
ghost use Rattle.nvm_core.specs.nv_desk.Picks.{IsInterruption};
ghost use Rattle.nvm_core.specs.nvm_laws.DueLaws.{NextIsPending};
ghost use Rattle.nvm_core.specs.nvm_laws.Work.{program_in_hand};
ghost use Rattle.nvm_core.specs.Lowers.{HalfLeft};
ghost use Rattle.nvm_core.specs.BehindDevice.{IsBehindTurn, TakesTurn};
ghost use Rattle.nvm_core.specs.Turns.{IsFirstHalf};
ghost use Rattle.nvm_shared.specs.Locked.{terms_of};
ghost use Rattle.nvm_core.specs.Stack.{stack_of};

use crate::telling::{Telling, Tells};
use crate::terms::Terms;
use crate::{picked_last, told_last};
use nvm_core::{
    Act, AskFault, DeviceTurn, Driver, Entry, Front, Last, MemDevice, Reply, Request, SyncCalls,
    Turned,
};
use std::alloc::{AllocError, Global};
use std::marker::Model;
use turn_gate::Kept;

/// The desk, with the memory of its copies, on the heap. Contracts see the desk, and whether the device tells what it holds.
#[derive(Drop)]
pub struct LockedOf<P: Tells + Drop> {
    front: Box<Front>,
    tells: P,
}

impl<P: Tells + Drop> Model for LockedOf<P> {
    ghost use Rattle.nvm_shared.specs.Locked.{LockedState, IsLocked};

    ghost Value = { LockedState };

    ghost view = { λ l. record { desk = l.front.value.desk; tells = P.tells l.tells } };

    ghost invariant = { λ l. IsLocked l.front.value.desk l.front.value.staging (P.tells l.tells) };
}

/// The desk under the lock. It is an alias, since threads take a struct whose parameters stand bare.
pub type Locked = LockedOf<Telling>;

impl Kept for Locked {
    ghost use Rattle.nvm_shared.specs.StatusWords.{gives, is_ask};
    ghost use Rattle.nvm_shared.specs.Locked.{terms_of};

    type Entry = Entry;

    type Root = Terms;

    ghost entries = { λ l. l.desk.entries };

    ghost gives = { gives };

    ghost is_open = { is_ask };

    ghost root = { terms_of };

    fn count(&self) -> u32 {
        self.front.desk.len()
    }
}

// The store that a write of RAM asks for, or 0.
fn asked_store(request: &Request) -> u64
    ensures { result ≡ asked_store request.now }
{
    match request {
        Request::Write {
            content: None,
            store,
            ..
        } => *store,
        _ => 0,
    }
}

impl Locked {
    // The desk behind a start-up, with the memory of its copies, in a place of its own: it stays there when the lock is passed on.
    pub(crate) fn of(alloc: Global, front: Front) -> Result<Locked, AllocError>
        ghost tells: { Bool }
        requires stages { StagesAll front.desk.config front.staging }
        requires started { IsTrue (state_of front.desk).started }
        requires written { AreWritten tells front.desk.config front.desk.cap at_first front.desk.entries }
        ensures { IfOk result (λ l. l ≡ record { desk = front.desk; tells = tells }) }
    {
        let front = Box::new(alloc, front)?;
        Ok(LockedOf {
            front,
            tells: Telling::picked(),
        })
    }

    // Gives the desk.
    pub(crate) fn into_front(self) -> Front
        ensures desk { result.desk ≡ self.desk }
        ensures written { AreWritten self.tells self.desk.config self.desk.cap at_first self.desk.entries }
        ensures started { IsTrue (state_of self.desk).started }
    {
        let LockedOf { front, .. } = self;
        Box::into_inner(front)
    }

    /// How many entries there are, at most the cap. A start-up stands, they are written as they may be, and the blocks of
    /// the job in hand and of the next job are PENDING.
    pub fn len(&self) -> u32
        ensures count { result ≡ length self.now.desk.entries }
        ensures started { IsTrue (state_of self.now.desk).started }
        ensures written { AreWritten self.now.tells self.now.desk.config self.now.desk.cap at_first self.now.desk.entries }
        ensures pending { HandIsPending (state_of self.now.desk) }
        ensures next { NextIsPending self.now.desk.config (state_of self.now.desk) }
        ensures within { length self.now.desk.entries ≤ self.now.desk.cap }
        ensures legal { IsLegalConfig self.now.desk.config }
    {
        let _desc = self.front.desk.desc_in_hand();
        let _blocks = self.front.desk.config().blocks();
        self.front.desk.len()
    }

    /// The word, with its status, that the entry behind so many others changes, if there is one and it changes one.
    pub fn change_behind(&self, count: u32) -> Option<(u32, u8)>
        ensures none { length self.now.desk.entries ≡ count → result ≡ None }
        ensures some { (h : List MachineEntry) (e : MachineEntry) → self.now.desk.entries ≡ h ++ e ∷ [] → length h ≡ count → result ≡ told_by e }
    {
        match self.entry_behind(count) {
            Some(last) => told_last(last),
            None => None,
        }
    }

    /// The block of the Pick behind so many others, if the entry there is one.
    pub fn picked_behind(&self, count: u32) -> Option<u16>
        ensures none { length self.now.desk.entries ≡ count → result ≡ None }
        ensures some { (h : List MachineEntry) (e : MachineEntry) → self.now.desk.entries ≡ h ++ e ∷ [] → length h ≡ count → result ≡ picked_by e }
    {
        match self.entry_behind(count) {
            Some(last) => picked_last(last),
            None => None,
        }
    }

    /// The block and the store that the next job asks for; 0 where it asks for none.
    pub fn asked(&self) -> Option<(u16, u64)>
        ensures { result ≡ option_map (λ j. (job_block j, asked_store j.request)) (next_in self.now.desk.config (state_of self.now.desk).waiting) }
    {
        match self.front.desk.next_job() {
            Some(job) => Some((job.block(), asked_store(job.request()))),
            None => None,
        }
    }

    // The last entry, where it is the one behind so many others. Most halves of turns add none: it is a part of its caller.
    #[inline(always)]
    fn entry_behind(&self, count: u32) -> Option<Last<'_>>
        ensures none { length self.now.desk.entries ≡ count → option_map last_of result ≡ None }
        ensures some { (h : List MachineEntry) (e : MachineEntry) → self.now.desk.entries ≡ h ++ e ∷ [] → length h ≡ count → option_map last_of result ≡ Some e }
    {
        if count < self.front.desk.len() {
            self.front.desk.last()
        } else {
            None
        }
    }

    /// Takes a request of a caller, and replies.
    #[tactic(auto, using(nvm_core::proofs::block_laws::HistoryLaws::histories_step, crate::proofs::WritingLegal::histories_are_written_on, crate::proofs::Standing::asks_leave_power))]
    pub fn ask(&mut self, alloc: Global, caller: u8, request: Request) -> Result<Reply, AskFault>
        requires caller { caller ≤ 15 }
        requires store { HasStore self.old.desk.config request }
        ensures ok { IfOk result (λ reply. self.new ≡ record self.old { desk = record self.old.desk { entries = self.old.desk.entries ++ Entry.Ask caller request reply ∷ [] } }) }
        ensures err { OnErr result (self.new ≡ self.old) }
        ensures no_room { IsErrOf result AskFault.NoRoom ↔ fits self.old.desk.config self.old.desk.cap (state_of self.old.desk) 1 ≡ false }
    {
        self.front.desk.ask(alloc, caller, request)
    }

    /// The first half of a turn: all but the device's own turn.
    pub fn first_half<D: MemDevice, C: SyncCalls + Drop>(
        &mut self,
        driver: &mut Driver<D, C>,
    ) -> Act
        requires tied { IsTied self.old.desk driver.old.hand (D.told driver.old.device) }
        requires fits { self.old.tells ≡ true → HandFits self.old.desk.config (state_of self.old.desk) driver.old.hand (D.told driver.old.device) }
        requires synchronized { AreSynchronized self.old.desk.config (C.told driver.old.copies) }
        ensures half { IsFirstHalf D.told C.told C.is_store C.looked result (stack_of self.old.desk driver.old) (stack_of self.new.desk driver.new) }
        ensures terms { terms_of self.new ≡ terms_of self.old }
        ensures synchronized { AreSynchronized self.old.desk.config (C.told driver.new.copies) }
        ensures off { result ≡ Act.Ended Turned.Off → (state_of self.new.desk).off ≡ true }
        ensures first { result ≡ Act.Device → ¬ IsInterruption self.old.desk }
        ensures left { HalfLeft result (program_in_hand driver.old.hand) (D.told driver.old.device) (program_in_hand driver.new.hand) (D.told driver.new.device) }
        ensures stays_over { (first : C) → C.over first driver.old.copies → C.over first driver.new.copies }
        ensures clock { SameClock (D.clock driver.old.device) (D.clock driver.new.device) }
        ensures keeps { StaysKept self.old.desk driver.old.hand (D.told driver.old.device) (D.clock driver.old.device) self.new.desk driver.new.hand (D.told driver.new.device) (D.clock driver.new.device) }
    {
        driver.first_half(&mut *self.front)
    }

    /// The second half of a turn: what the device's turn came to.
    pub fn second_half<D: MemDevice, C: SyncCalls + Drop>(
        &mut self,
        driver: &mut Driver<D, C>,
        turned: DeviceTurn,
    ) -> Turned
        requires { (old : DeviceTold) × IsBehindTurn turned self.old.desk driver.old.hand old (D.told driver.old.device) }
        ensures takes { TakesTurn turned result self.old.desk self.new.desk driver.old.hand driver.new.hand (D.told driver.old.device) }
        ensures tied { IsTied self.new.desk driver.new.hand (D.told driver.old.device) }
        ensures only { driver.new ≡ record driver.old { hand = driver.new.hand } }
        ensures terms { terms_of self.new ≡ terms_of self.old }
    {
        driver.second_half(&mut self.front.desk, turned)
    }
}
