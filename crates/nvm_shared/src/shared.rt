// What threads share.
ghost use Rattle.std.specs.Prelude.{◌≡◌, ◌≤◌, ◌<◌, ◌^◌, ◌++◌, ◌∷◌, [], length, false, Some, IfOk, OnErr, IsErrOf, IsTrue};
ghost use Rattle.nvm_core.specs.nv_base.declared.entry.Entry.TheVariants as Entry;
ghost use Rattle.nvm_core.specs.nv_desk.declared.ask.AskFault.TheVariants as AskFault;
ghost use Rattle.nvm_core.specs.block_machine.Words.{Entry as MachineEntry};
ghost use Rattle.nvm_core.specs.block_machine.StartUp.{at_first};
ghost use Rattle.nvm_core.specs.block_machine.Reply.{fits};
ghost use Rattle.nvm_core.specs.block_machine.Legal.{HasStore};
ghost use Rattle.nvm_core.specs.nv_desk.Desk.{state_of};
ghost use Rattle.turn_gate.specs.Entries.{StartsWith, AllAgree, AllHeard, NotBelow};
ghost use Rattle.turn_gate.specs.Pass.{IsPassOf, IsInside, IsOutside, OwnsAll, both, knows, left_part, noted, right_part, went_out, grown};
ghost use Rattle.nvm_shared.specs.StatusWords.{gives, off_word};
ghost use Rattle.nvm_shared.specs.Written.{AreWritten};
ghost use Rattle.nvm_shared.specs.Locked.{terms_of, desk_with};
ghost use Rattle.nvm_core.specs.nvm_laws.DueLaws.{NextIsPending};
ghost use Rattle.nvm_shared.specs.Passes.{Asked, IsUserOf, IsExtended, LearnsMore};

use crate::OFF_WORD;
use crate::locked::Locked;
use nvm_core::{AskFault, Front, Reply, Request};
use std::alloc::Global;
use std::marker::Model;
use std::snapshot::Snapshot;
use std::sync::Wait;
use turn_gate::{Gate, Kept, Pass, Polled};

/// What one thread knows of a shared stack, and its right to use it.
pub type StackPass = Pass<Locked>;

/// What tells a gate, as contracts see it.
pub trait TellsGate {
    ghost use Rattle.turn_gate.specs.Pass.{GateValue};

    ghost gate: { Self → GateValue };
}

impl<V: Kept> TellsGate for Gate<V> {
    ghost gate = { λ g. g };
}

/// What tells the terms of a desk.
pub trait TellsTerms {
    ghost use Rattle.nvm_shared.specs.declared.terms.Terms.{Terms};

    ghost terms: { Self → Terms };
}

impl TellsTerms for Snapshot<Locked> {
    ghost use Rattle.nvm_shared.specs.Locked.{terms_of};

    ghost terms = { λ s. terms_of s.value };
}

/// The lock with the stack's desk, by its parts. Contracts see the lock, and what never changes of the desk.
#[derive(Drop)]
pub struct SharedOf<G: TellsGate + Drop, T: TellsTerms + Drop> {
    pub(crate) gate: G,
    pub(crate) first: T,
}

impl<G: TellsGate + Drop, T: TellsTerms + Drop> Model for SharedOf<G, T> {
    ghost use Rattle.std.specs.Prelude.{◌≡◌};
    ghost use Rattle.nvm_shared.specs.StatusWords.{word_count};
    ghost use Rattle.nvm_shared.specs.Passes.{SharedState};

    ghost Value = { SharedState };

    ghost view = { λ s. record { gate = G.gate s.gate; terms = T.terms s.first } };

    ghost invariant = { λ s. (G.gate s.gate).words ≡ word_count };
}

/// What all threads share: the lock round the stack's desk, with the words that tell statuses. It is an alias, since threads share
/// a struct whose parameters stand bare.
pub type Shared = SharedOf<Gate<Locked>, Snapshot<Locked>>;

impl Shared {
    /// Makes a request of a caller, 0 to 15, and answers the reply with the number of its entry.
    pub fn ask<W: Wait>(
        &self,
        rt: &W,
        alloc: Global,
        pass: &mut StackPass,
        caller: u8,
        request: Request,
    ) -> Result<(Reply, u32), AskFault>
        requires own { IsUserOf self.now pass.old }
        requires caller { caller ≤ 15 }
        requires store { HasStore self.now.terms.config request }
        ensures own { IsUserOf self.now pass.new }
        ensures starts { StartsWith (knows pass.new).seen (knows pass.old).seen }
        ensures asked { IfOk result (λ r. Asked (knows pass.old) (knows pass.new) r.1 (Entry.Ask caller request r.0)) }
        ensures none { OnErr result ((knows pass.new).own ≡ (knows pass.old).own) }
        ensures written { AreWritten self.now.terms.tells self.now.terms.config self.now.terms.cap at_first (knows pass.new).seen }
        ensures same { ((knows pass.new).notes ≡ (knows pass.old).notes) × ((knows pass.new).heard ≡ (knows pass.old).heard) × ((knows pass.new).mark ≡ (knows pass.old).mark) × ((knows pass.new).parts ≡ (knows pass.old).parts) }
        ensures agree { OnErr result (AllAgree gives (knows pass.new).seen (knows pass.old).notes) }
        ensures no_room { IsErrOf result AskFault.NoRoom → fits self.now.terms.config self.now.terms.cap (state_of (desk_with self.now.terms (knows pass.new).seen)) 1 ≡ false }
    {
        let mut value = self.gate.enter(rt, pass);
        let number = value.len();
        let answer = value.ask(alloc, caller, request);
        let _len = value.len();
        self.leave(pass, value, number);
        Ok((answer?, number))
    }

    /// Sees the whole list, and tells how many entries it has.
    pub fn count<W: Wait>(&self, rt: &W, pass: &mut StackPass) -> u32
        requires own { IsUserOf self.now pass.old }
        ensures own { IsUserOf self.now pass.new }
        ensures count { result ≡ length (knows pass.new).seen }
        ensures learns { LearnsMore (knows pass.old) (knows pass.new) }
        ensures written { AreWritten self.now.terms.tells self.now.terms.config self.now.terms.cap at_first (knows pass.new).seen }
        ensures next { NextIsPending self.now.terms.config (state_of (desk_with self.now.terms (knows pass.new).seen)) }
    {
        let value = self.gate.enter(rt, pass);
        let number = value.len();
        self.leave(pass, value, number);
        number
    }

    /// Reads the status of a block, and the number of the entry that gave it.
    pub fn poll(&self, pass: &mut StackPass, block: u16) -> Polled
        requires own { IsUserOf self.now pass.old }
        requires block { block ≤ 512 }
        ensures own { IsUserOf self.now pass.new }
        ensures note { knows pass.new ≡ noted (knows pass.old) block result.entry result.status }
        ensures fresh { NotBelow gives (knows pass.old).seen (knows pass.old).notes block result.entry }
    {
        self.gate.poll(pass, u32::from(block))
    }

    /// Whether the power went off: status 1 from an Off on, and the number of its entry.
    pub fn poll_off(&self, pass: &mut StackPass) -> Polled
        requires own { IsUserOf self.now pass.old }
        ensures own { IsUserOf self.now pass.new }
        ensures note { knows pass.new ≡ noted (knows pass.old) off_word result.entry result.status }
        ensures fresh { NotBelow gives (knows pass.old).seen (knows pass.old).notes off_word result.entry }
    {
        self.gate.poll(pass, OFF_WORD)
    }

    /// A pass with all that this one has seen, without the mark, and with no own entries. This one has a part less.
    pub fn split(&self, pass: &mut StackPass) -> StackPass
        requires own { IsUserOf self.now pass.old }
        requires parts { 1 < (knows pass.old).parts }
        ensures own { IsUserOf self.now pass.new × IsUserOf self.now result }
        ensures this { knows pass.new ≡ left_part (knows pass.old) }
        ensures that { knows result ≡ right_part (knows pass.old) }
    {
        self.gate.split(pass)
    }

    /// Takes in all that another pass has seen, was told and has added, its mark and its parts.
    pub fn join(&self, pass: &mut StackPass, other: StackPass)
        requires own { IsUserOf self.now pass.old × IsUserOf self.now other }
        ensures own { IsUserOf self.now pass.new }
        ensures both { knows pass.new ≡ both (knows pass.old) (knows other) }
    {
        self.gate.join(pass, other);
    }

    /// Gives the desk back, with the memory of its copies. The last pass has seen its list, and added each entry after the
    /// first.
    pub fn close(self, pass: StackPass) -> Front
        requires own { IsUserOf self pass }
        requires alone { (knows pass).parts ≡ 2 ^ 64 }
        ensures desk { result.desk ≡ desk_with self.terms (knows pass).seen }
        ensures all { OwnsAll (knows pass) result.desk.entries }
        ensures agree { AllAgree gives result.desk.entries (knows pass).notes }
        ensures heard { AllHeard result.desk.entries (knows pass).heard }
        ensures started { IsTrue (state_of result.desk).started }
        ensures written { AreWritten self.terms.tells self.terms.config self.terms.cap at_first result.desk.entries }
    {
        let SharedOf { gate, .. } = self;
        gate.close(pass).into_front()
    }

    // Puts the value back, whose list is the one that was seen or has one more entry, and lets the next pass in.
    pub(crate) fn leave(&self, pass: &mut StackPass, value: Locked, seen: u32)
        requires own { IsPassOf self.now.gate pass.old }
        requires inside { IsInside pass.old }
        requires root { (knows pass.old).root ≡ Some (terms_of value) }
        requires seen { seen ≡ length (knows pass.old).seen }
        requires adds { IsExtended (knows pass.old) value.desk.entries }
        ensures own { IsPassOf self.now.gate pass.new }
        ensures outside { IsOutside pass.new }
        ensures same { value.desk.entries ≡ (knows pass.old).seen → knows pass.new ≡ went_out (knows pass.old) }
        ensures more { (e : MachineEntry) → value.desk.entries ≡ (knows pass.old).seen ++ e ∷ [] → knows pass.new ≡ went_out (grown (knows pass.old) value.desk.entries) }
    {
        match value.change_behind(seen) {
            Some((word, status)) => {
                self.gate.set_word(pass, &value, word, status);
                self.gate.leave(pass, value);
            }
            None => self.gate.leave(pass, value),
        }
    }
}
