//! The gate.
ghost use Rattle.std.specs.Prelude.{◌≡◌, ◌≢◌, ℕ, ◌+◌, ◌-◌, ◌*◌, ◌<◌, ◌≤◌, ◌^◌, ◌⊎◌, [], ◌∷◌, ◌++◌, length, true, false, Some};
ghost use Rattle.turn_gate.specs.Entries.{StartsWith, AllAgree, AllHeard, OpenFrom, NotBelow, OnlyGives, GivesNone};
ghost use Rattle.turn_gate.specs.declared.pass.View.{View as PassView};
ghost use Rattle.turn_gate.specs.Pass.{IsPassOf, IsKnownOf, IsWithin, knows, IsKin, IsInside, IsOutside, IsAway, AddsOne, noted, grown, went_out, left_part, right_part, both, copied, informed, OwnsAll};
ghost use Rattle.turn_gate.specs.Turns.{HasEntered, HasDrawn, looked};

use crate::kept::Kept;
use crate::pass::{Known, Pass, Place, View, discard};
use crate::status::{Polled, polled_of, word_of};
use crate::turns::{
    About, Arrive, Compare, Copies, Draw, Enter, Halves, HasWords, Informs, Leave, Look, Poll, Set,
    Turns,
};
use atomic_table::{Badge, Table, TableRule};
use std::alloc::Global;
use std::marker::Model;
use std::snapshot::Snapshot;
use std::sync::Wait;
use std::{hint, mem, thread};

// How many looks are taken before a ticket is drawn. As a rule who is inside is out again within some of them.
const LOOKS_WITHOUT_A_TICKET: u32 = 256;

/// What all threads share. Contracts see which gate it is, and how many status words it has.
#[derive(Drop)]
pub struct GateOf<S, D, K: HasWords, Q: TableRule<S, D, K>> {
    pub(crate) table: Table<S, D, K, Q, Global>,
}

impl<S, D, K: HasWords, Q: TableRule<S, D, K>> Model for GateOf<S, D, K, Q> {
    ghost use Rattle.std.specs.Prelude.{◌≡◌, ◌+◌};
    ghost use Rattle.turn_gate.specs.Pass.{GateValue};

    ghost Value = { GateValue };

    ghost view = { λ g. record { table = g.table.shared.table_id; words = K.words g.table.shared.key } };

    ghost invariant = { λ g. g.table.shared.table_id.words ≡ K.words g.table.shared.key + 2 };
}

/// A gate round a value of `V`. It is an alias, since threads share a struct whose parameters stand bare.
pub type Gate<V> = GateOf<
    Place<V>,
    View<<V as Kept>::Entry, <V as Kept>::Root>,
    About<V>,
    Turns<V>,
>;

impl<V: Kept> Gate<V> {
    /// Waits for the turn of this pass, and lends it the value. Its list begins with all that the pass had seen, and
    /// agrees with all that it was told. Where nobody waits this takes three atomic steps. It takes no memory.
    pub fn enter<W: Wait>(&self, rt: &W, pass: &mut Pass<V>) -> V
        requires own { IsPassOf self.now pass.old }
        requires outside { IsOutside pass.old }
        ensures own { IsPassOf self.now pass.new }
        ensures inside { IsInside pass.new }
        ensures seen { (knows pass.new).seen ≡ V.entries result }
        ensures starts { StartsWith (V.entries result) (knows pass.old).seen }
        ensures agree { AllAgree V.gives (V.entries result) (knows pass.old).notes }
        ensures heard { AllHeard (V.entries result) (knows pass.old).heard }
        ensures root { (knows pass.old).root ≡ Some (V.root result) }
        ensures open { (knows pass.old).mark ≡ true → OpenFrom V.is_open (V.entries result) (length (knows pass.old).seen) }
        ensures alone { (knows pass.old).parts ≡ 2 ^ 64 → V.entries result ≡ (knows pass.old).seen }
        ensures same { IsKin (knows pass.old) (knows pass.new) }
    {
        self.take_turn(rt, pass);
        match self.table.shared.exchange(pass, 0, Place::Empty) {
            Place::Here(value) => value,
            _ => unreachable!(),
        }
    }

    fn take_turn<W: Wait>(&self, rt: &W, pass: &mut Pass<V>)
        requires own { IsPassOf self.now pass.old }
        requires outside { IsOutside pass.old }
        ensures own { IsPassOf self.now pass.new }
        ensures entered { HasEntered V.entries V.gives V.is_open V.root (knows pass.old) pass.new.me }
    {
        if self.arrive_soon(pass) {
            return;
        }
        let ticket = self.draw(rt, pass);
        self.wait_turn(rt, pass, ticket);
    }

    // Enters within some looks, where nobody else has a ticket by then.
    fn arrive_soon(&self, pass: &mut Pass<V>) -> bool
        requires own { IsPassOf self.now pass.old }
        requires outside { IsOutside pass.old }
        ensures own { IsPassOf self.now pass.new }
        ensures entered { result ≡ true → HasEntered V.entries V.gives V.is_open V.root (knows pass.old) pass.new.me }
        ensures missed { result ≡ false → (s : ℕ) × (pass.new.me ≡ (looked (knows pass.old) s, pass.old.me.1)) }
    {
        for _ in 0..LOOKS_WITHOUT_A_TICKET {
            if self.arrive(pass) {
                return true;
            }
            hint::spin_loop();
        }
        false
    }

    // Enters at once, where the next ticket is the one that is served.
    fn arrive(&self, pass: &mut Pass<V>) -> bool
        requires own { IsPassOf self.now pass.old }
        requires outside { IsOutside pass.old }
        ensures own { IsPassOf self.now pass.new }
        ensures entered { result ≡ true → HasEntered V.entries V.gives V.is_open V.root (knows pass.old) pass.new.me }
        ensures missed { result ≡ false → (s : ℕ) × (pass.new.me ≡ (looked (knows pass.old) s, pass.old.me.1)) }
    {
        let served = self.table.shared.load::<Look>(pass, 0);
        if served == u64::MAX || self.table.shared.peek(1) != served {
            return false;
        }
        self.table
            .shared
            .compare_exchange::<Arrive>(pass, 1, served, served + 1)
            == served
    }

    fn draw<W: Wait>(&self, rt: &W, pass: &mut Pass<V>) -> u64
        requires own { IsPassOf self.now pass.old }
        requires outside { IsOutside pass.old }
        ensures own { IsPassOf self.now pass.new }
        ensures drawn { HasDrawn (knows pass.old) result pass.new.me }
    {
        for _ in rt.forever() {
            let next = self.table.shared.peek(1);
            if next < u64::MAX && self.try_draw(pass, next) {
                return next;
            }
        }
        unreachable!()
    }

    fn try_draw(&self, pass: &mut Pass<V>, next: u64) -> bool
        requires own { IsPassOf self.now pass.old }
        requires outside { IsOutside pass.old }
        requires small { next + 1 < 2 ^ 64 }
        ensures own { IsPassOf self.now pass.new }
        ensures drawn { result ≡ true → HasDrawn (knows pass.old) next pass.new.me }
        ensures missed { result ≡ false → pass.new.me ≡ pass.old.me }
    {
        self.table
            .shared
            .compare_exchange::<Draw>(pass, 1, next, next + 1)
            == next
    }

    fn wait_turn<W: Wait>(&self, rt: &W, pass: &mut Pass<V>, ticket: u64)
        requires own { IsPassOf self.now pass.old }
        requires waits { ((knows pass.old).waits ≡ true) × ((knows pass.old).inside ≡ false) × ((knows pass.old).ticket ≡ ticket) × (pass.old.me.1 ≡ []) }
        ensures own { IsPassOf self.now pass.new }
        ensures entered { HasEntered V.entries V.gives V.is_open V.root (knows pass.old) pass.new.me }
    {
        for _ in rt.forever() {
            if self.is_served(pass, ticket) {
                return;
            }
            thread::yield_now();
        }
        unreachable!()
    }

    // One look at the ticket that is served.
    fn is_served(&self, pass: &mut Pass<V>, ticket: u64) -> bool
        requires own { IsPassOf self.now pass.old }
        requires waits { ((knows pass.old).waits ≡ true) × ((knows pass.old).inside ≡ false) × ((knows pass.old).ticket ≡ ticket) × (pass.old.me.1 ≡ []) }
        ensures own { IsPassOf self.now pass.new }
        ensures missed { result ≡ false → pass.new.me ≡ pass.old.me }
        ensures entered { result ≡ true → HasEntered V.entries V.gives V.is_open V.root (knows pass.old) pass.new.me }
    {
        self.table.shared.load::<Enter>(pass, 0) == ticket
    }

    /// Publishes the status that the value's newest entry gives a word. One swap; it waits for nobody.
    pub fn set_word(&self, pass: &mut Pass<V>, value: &V, word: u32, status: u8)
        requires own { IsPassOf self.now pass.old }
        requires inside { IsInside pass.old }
        requires word { word < self.now.words }
        requires adds { AddsOne V.entries V.is_open (knows pass.old) value.now (OnlyGives V.gives word status) }
        ensures own { IsPassOf self.now pass.new }
        ensures inside { IsInside pass.new }
        ensures grown { knows pass.new ≡ grown (knows pass.old) (V.entries value.now) }
    {
        let number = value.count() - 1;
        let old = self
            .table
            .shared
            .exchange(pass, 0, Place::Told(Snapshot::of(value)));
        self.table
            .shared
            .swap::<Set>(pass, word as usize + 2, word_of(number, status));
        discard(old);
    }

    /// Puts the value back, and lets the next pass in. Its list is the one that was seen, or has one entry more, which
    /// gives no word a status. It waits for nobody.
    pub fn leave(&self, pass: &mut Pass<V>, value: V)
        requires own { IsPassOf self.now pass.old }
        requires inside { IsInside pass.old }
        requires root { (knows pass.old).root ≡ Some (V.root value) }
        requires adds { (V.entries value ≡ (knows pass.old).seen) ⊎ AddsOne V.entries V.is_open (knows pass.old) value (GivesNone V.gives) }
        ensures own { IsPassOf self.now pass.new }
        ensures outside { IsOutside pass.new }
        ensures same { V.entries value ≡ (knows pass.old).seen → knows pass.new ≡ went_out (knows pass.old) }
        ensures more { (e : V.Entry) → V.entries value ≡ (knows pass.old).seen ++ e ∷ [] → knows pass.new ≡ went_out (grown (knows pass.old) (V.entries value)) }
    {
        let _count = value.count();
        let old = self.table.shared.exchange(pass, 0, Place::Here(value));
        self.table.shared.fetch_add::<Leave>(pass, 0, 1);
        discard(old);
    }

    /// Reads a status word: the status, and the number of the entry that gave it. That entry is not older than any that
    /// the pass has seen or was told for this word. One load; it waits for nobody.
    pub fn poll(&self, pass: &mut Pass<V>, word: u32) -> Polled
        requires own { IsPassOf self.now pass.old }
        requires word { word < self.now.words }
        ensures own { IsPassOf self.now pass.new }
        ensures note { (knows pass.new ≡ noted (knows pass.old) word result.entry result.status) × (pass.new.me.1 ≡ pass.old.me.1) }
        ensures fresh { NotBelow V.gives (knows pass.old).seen (knows pass.old).notes word result.entry }
    {
        polled_of(self.table.shared.load::<Poll>(pass, word as usize + 2))
    }

    /// Copies what the pass has seen and was told, to be handed to another thread. The pass stays as it is. It waits for nobody.
    pub fn known(&self, pass: &mut Pass<V>) -> Known<V>
        requires own { IsPassOf self.now pass.old }
        ensures own { IsPassOf self.now pass.new }
        ensures same { pass.new.me ≡ pass.old.me }
        ensures known { IsKnownOf self.now result (copied (knows pass.old)) }
    {
        self.table.shared.split_seat::<Copies>(pass).into_badge()
    }

    /// In the lock, holds what was copied beside the value's list as the pass has seen it: the list begins with all that was seen
    /// then, and agrees with all that was told. It waits for nobody.
    pub fn compare(&self, pass: &mut Pass<V>, known: &mut Known<V>)
        ghost view: { PassView V.Entry V.Root }
        requires own { IsPassOf self.now pass.old }
        requires inside { IsInside pass.old }
        requires known { IsKnownOf self.now known.old view }
        ensures own { IsPassOf self.now pass.new }
        ensures inside { IsInside pass.new }
        ensures informed { knows pass.new ≡ informed (knows pass.old) view }
        ensures within { IsWithin V.gives (knows pass.old).seen view }
        ensures known { IsKnownOf self.now known.new view }
    {
        let mut seat = mem::replace(known, Badge::blank()).into_seat::<Place<V>>();
        let copy = self.table.shared.split_seat::<Copies>(&mut seat);
        *known = seat.into_badge();
        self.table.shared.join_seat::<Informs>(pass, copy);
        self.table.shared.load::<Compare>(pass, 0);
    }

    /// A pass with all that this one has seen, without the mark, and with no own entries.
    pub fn split(&self, pass: &mut Pass<V>) -> Pass<V>
        requires own { IsPassOf self.now pass.old }
        requires parts { 1 < (knows pass.old).parts }
        ensures own { IsPassOf self.now pass.new × IsPassOf self.now result }
        ensures this { pass.new.me ≡ (left_part (knows pass.old), pass.old.me.1) }
        ensures that { result.me ≡ (right_part (knows pass.old), []) }
    {
        self.table.shared.split_seat::<Halves>(pass)
    }

    /// Takes in all that another pass has seen, was told and has added, and its mark.
    pub fn join(&self, pass: &mut Pass<V>, other: Pass<V>)
        requires own { IsPassOf self.now pass.old × IsPassOf self.now other }
        requires outside { IsOutside pass.old × IsOutside other }
        ensures own { IsPassOf self.now pass.new }
        ensures both { pass.new.me ≡ (both (knows pass.old) (knows other), pass.old.me.1) }
    {
        self.table.shared.join_seat::<Halves>(pass, other);
    }

    /// Gives the value back. The last pass has seen its list, and added each entry after the first.
    pub fn close(self, pass: Pass<V>) -> V
        requires own { IsPassOf self pass }
        requires outside { IsOutside pass }
        requires alone { (knows pass).parts ≡ 2 ^ 64 }
        ensures all { OwnsAll (knows pass) (V.entries result) }
        ensures agree { AllAgree V.gives (V.entries result) (knows pass).notes }
        ensures heard { AllHeard (V.entries result) (knows pass).heard }
        ensures root { (knows pass).root ≡ Some (V.root result) }
    {
        let GateOf { table } = self;
        let mut closed = table.close_with(pass);
        let place = closed.take(0);
        closed.free();
        match place {
            Place::Here(value) => value,
            _ => unreachable!(),
        }
    }
}
