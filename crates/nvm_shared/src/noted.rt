// Copies whose stores hand along what their caller knew.
ghost use Rattle.std.specs.Prelude.{◌≡◌, ◌<◌, ℕ, List, map, IfSome};
ghost use Rattle.nvm_core.specs.block_machine.Words.{Entry};
ghost use Rattle.turn_gate.specs.Pass.{GateValue, IsPassOf, IsInside, IsWithin, informed, knows};
ghost use Rattle.nvm_core.specs.ram_blocks.Told.{IsSynchronized};
ghost use Rattle.ram_mirrors_sync.specs.Blocks.{HasCameWith, HasLooked, told_by};
ghost use Rattle.nvm_shared.specs.StatusWords.{gives};
ghost use Rattle.nvm_shared.specs.Passes.{IsInformed};
ghost use Rattle.nvm_shared.specs.Noted.{GoOn, HasSeen, MirrorsGoOn, SeesBlock, StandsIn};

use crate::known::{Known, Naming};
use crate::shared::{Shared, StackPass};
use nvm_core::{PlainSync, SyncCalls};
use ram_mirrors_sync::{MirrorSync, Note, hold_note};
use std::sync::Wait;

/// The application's copies, where a store may hand along what its caller knew.
pub trait NotedCopies: SyncCalls {
    ghost use Rattle.std.specs.Prelude.{ℕ, List};
    ghost use Rattle.nvm_core.specs.block_machine.Words.{Entry};
    ghost use Rattle.turn_gate.specs.Pass.{GateValue};

    /// Whether what is handed along is of this lock.
    ghost is_of: { GateValue → Type 0 };

    /// That a look at a block showed the store with this number, and that what came along with it, or with a later one that was
    /// taken, stands in these entries.
    ghost stands: { Self → ℕ → ℕ → List Entry → Type 0 };

    /// Looks at a block until it was shown the store with this number, or a later one. It does nothing where the block isn't
    /// synchronized.
    fn see<W: Wait>(&mut self, rt: &W, block: u16, number: u64)
        ensures goes_on { GoOn Self.told Self.is_store Self.looked Self.over self.old self.new }
        ensures seen { SeesBlock Self.told Self.looked block number self.old self.new };

    /// In the lock, holds what came along with the store of a block that was taken last beside the list as the pass has seen it.
    /// The copies stay as they are.
    fn hold(&mut self, block: u16, shared: &Shared, pass: &mut StackPass)
        requires lock { is_of shared.now.gate }
        requires own { IsPassOf shared.now.gate pass.old }
        requires inside { IsInside pass.old }
        ensures same { self.new ≡ self.old }
        ensures own { IsPassOf shared.now.gate pass.new }
        ensures inside { IsInside pass.new }
        ensures informed { IsInformed (knows pass.old) (knows pass.new) }
        ensures stands { (before : Self) (n : ℕ) → Self.looked before self.old block n → stands self.old block n (knows pass.old).seen }
        ensures over { Self.over self.old self.old };
}

impl NotedCopies for PlainSync {
    ghost is_of = { λ _. Unit {0} };

    ghost stands = { λ _ _ _ _. Unit {0} };

    // Its application stores while no turn is made.
    fn see<W: Wait>(&mut self, _rt: &W, _block: u16, _number: u64) {}

    fn hold(&mut self, _block: u16, _shared: &Shared, _pass: &mut StackPass) {}
}

impl<J: Naming> Note<Shared, StackPass> for Known<J> {
    ghost ready = { λ shared pass. (shared.gate ≡ J.gate) × IsPassOf shared.gate pass × IsInside pass };

    ghost held = { λ shared note old new. IsPassOf shared.gate new × IsInside new × (knows new ≡ informed (knows old) note) × IsWithin gives (knows old).seen note };

    fn hold(&mut self, with: &Shared, by: &mut StackPass) {
        self.compare(with, by);
    }
}

impl<'a, J: Naming> NotedCopies for MirrorSync<'a, Known<J>> {
    ghost is_of = { λ gate. gate ≡ J.gate };

    ghost stands = { λ s block number entries. HasCameWith (StandsIn entries) s.ends block number };

    fn see<W: Wait>(&mut self, rt: &W, block: u16, number: u64) {
        match self.bytes(block) {
            Some(_length) => see_block(self, rt, block, number),
            None => {}
        }
    }

    fn hold(&mut self, block: u16, shared: &Shared, pass: &mut StackPass) {
        hold_note(self, block, shared, pass);
    }
}

// Looks at a synchronized block until it was shown this store, or a later one.
fn see_block<'a, W: Wait, J: Naming>(
    sync: &mut MirrorSync<'a, Known<J>>,
    rt: &W,
    block: u16,
    number: u64,
)
    requires synchronized { (bytes : ℕ) × IsSynchronized (map told_by sync.old.ends) block bytes }
    ensures goes_on { MirrorsGoOn sync.old sync.new }
    ensures seen { HasSeen (λ old new. HasLooked old.ends new.ends) block number sync.old sync.new }
{
    for _ in rt.forever() {
        if number <= sync.look(block) {
            return;
        }
    }
    unreachable!()
}

// Looks at what the next job asks for, until it was shown that. It is there, since the caller stored it before its request. Most turns find
// no such job: it is a part of its caller.
#[inline(always)]
pub(crate) fn see_asked<W: Wait, C: NotedCopies>(rt: &W, copies: &mut C, asked: Option<(u16, u64)>)
    ensures goes_on { GoOn C.told C.is_store C.looked C.over copies.old copies.new }
    ensures seen { IfSome asked (λ a. 0 < a.1 → SeesBlock C.told C.looked a.0 a.1 copies.old copies.new) }
{
    match asked {
        Some((block, number)) if 0 < number => copies.see(rt, block, number),
        _ => {}
    }
}

// What came along with the block of a Pick, if there is a Pick.
pub(crate) fn hold_picked<C: NotedCopies>(
    copies: &mut C,
    picked: Option<u16>,
    shared: &Shared,
    pass: &mut StackPass,
)
    requires lock { C.is_of shared.now.gate }
    requires own { IsPassOf shared.now.gate pass.old }
    requires inside { IsInside pass.old }
    ensures same { copies.new ≡ copies.old }
    ensures own { IsPassOf shared.now.gate pass.new }
    ensures inside { IsInside pass.new }
    ensures informed { IsInformed (knows pass.old) (knows pass.new) }
    ensures stands { IfSome picked (λ block. ((before : C) (n : ℕ) → C.looked before copies.old block n → C.stands copies.old block n (knows pass.old).seen) × C.over copies.old copies.old) }
{
    match picked {
        Some(block) => copies.hold(block, shared, pass),
        None => {}
    }
}
