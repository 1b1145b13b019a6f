// Where a caller's stores go.
ghost use Rattle.std.specs.Prelude.{◌≡◌, ℕ, List, [], length, Some, None};
ghost use Rattle.turn_gate.specs.Pass.{GateValue, copied, knows};
ghost use Rattle.driver_moves.specs.nvm_shared.Passes.{IsUserOf};
ghost use Rattle.ram_mirrors_sync.specs.Blocks.{AreSidesOf};
ghost use Rattle.nvm_callers.specs.Stored.{StoredOne};
ghost use Rattle.nvm_callers.specs.Stores.{bytes_at, stores_at};

use driver_moves::nvm_shared::{Known, Naming, Shared, StackPass};
use ram_mirrors_sync::{Mirrors, Sides};
use std::marker::Model;

/// Where a caller's stores into synchronized RAM go, each with what its pass knows.
pub trait Stores {
    ghost use Rattle.std.specs.Prelude.{ℕ, List, Option};
    ghost use Rattle.turn_gate.specs.Pass.{GateValue};
    ghost use Rattle.ram_mirrors_sync.specs.Blocks.{Pairs};
    ghost use Rattle.nvm_callers.specs.Stored.{Stored};

    /// Whether it takes what passes of this lock know.
    ghost is_of: { GateValue → Type 0 };

    /// All stores of a block, in order.
    ghost made: { Self → ℕ → List Stored };

    /// How many bytes a store of a block has, where it may store into that.
    ghost bytes: { Self → ℕ → Option ℕ };

    /// The mirrors that they go into, if there are any.
    ghost mirrors: { Self → Pairs };

    /// Stores a content into a block, if it may, and hands along what the pass knows. The pass stays as it is, and nobody is waited
    /// for.
    fn store(&mut self, shared: &Shared, pass: &mut StackPass, block: u16, content: &[u8])
        requires lock { is_of shared.now.gate }
        requires own { IsUserOf shared.now pass.old }
        ensures own { IsUserOf shared.now pass.new }
        ensures same { knows pass.new ≡ knows pass.old }
        ensures stored { bytes self.old block ≡ Some (length content.now) → StoredOne block content.now (copied (knows pass.old)) (made self.old) (made self.new) }
        ensures bytes { (other : ℕ) → bytes self.new other ≡ bytes self.old other }
        ensures mirrors { mirrors self.new ≡ mirrors self.old };
}

/// Nothing is stored.
#[derive(Clone, Copy, Drop)]
pub struct NoStores;

impl Stores for NoStores {
    ghost is_of = { λ _. Unit {0} };

    ghost made = { λ _ _. [] };

    ghost bytes = { λ _ _. None };

    ghost mirrors = { λ _. [] };

    fn store(&mut self, _shared: &Shared, _pass: &mut StackPass, _block: u16, _content: &[u8]) {}
}

/// A caller's sides of its synchronized blocks, with the mirrors. Contracts see both.
#[derive(Drop)]
pub struct SidesIn<'a, J: Naming> {
    pub(crate) mirrors: &'a Mirrors<Known<J>>,
    pub(crate) sides: Sides<Known<J>>,
}

impl<'a, J: Naming> Model for SidesIn<'a, J> {
    ghost use Rattle.ram_mirrors_sync.specs.Blocks.{AreSidesOf};
    ghost use Rattle.nvm_callers.specs.Stores.{SidesValue};

    ghost Value = { SidesValue };

    ghost view = { λ s. record { mirrors = s.mirrors.now; sides = s.sides } };

    ghost invariant = { λ s. AreSidesOf s.mirrors.now s.sides };
}

impl<'a, J: Naming> SidesIn<'a, J> {
    /// Sides of these mirrors.
    pub fn of(mirrors: &'a Mirrors<Known<J>>, sides: Sides<Known<J>>) -> SidesIn<'a, J>
        requires { AreSidesOf mirrors.now sides }
        ensures { result ≡ record { mirrors = mirrors.now; sides = sides } }
    {
        SidesIn { mirrors, sides }
    }

    /// Gives them back.
    pub fn into_sides(self) -> Sides<Known<J>>
        ensures sides { result ≡ self.entry.sides }
        ensures own { AreSidesOf self.entry.mirrors result }
    {
        let SidesIn { sides, .. } = self;
        sides
    }
}

// Stores into a block whose side is in, with contents of this length.
fn store_into<J: Naming>(
    mirrors: &Mirrors<Known<J>>,
    sides: &mut Sides<Known<J>>,
    block: u16,
    content: &[u8],
    known: Known<J>,
)
    requires own { AreSidesOf mirrors.now sides.old }
    ensures own { AreSidesOf mirrors.now sides.new }
    ensures stored { bytes_at sides.old block ≡ Some (length content.now) → StoredOne block content.now known (stores_at sides.old) (stores_at sides.new) }
    ensures bytes { (other : ℕ) → bytes_at sides.new other ≡ bytes_at sides.old other }
{
    match sides.take(block) {
        Some(mut side) => {
            if side.bytes() == content.len() {
                side.store(mirrors, content, Some(known));
            }
            sides.put(side);
        }
        None => {}
    }
}

impl<'a, J: Naming> Stores for SidesIn<'a, J> {
    ghost is_of = { λ gate. gate ≡ J.gate };

    ghost made = { λ s. stores_at s.sides };

    ghost bytes = { λ s. bytes_at s.sides };

    ghost mirrors = { λ s. s.mirrors };

    fn store(&mut self, shared: &Shared, pass: &mut StackPass, block: u16, content: &[u8]) {
        let known = Known::of(shared, pass);
        store_into(self.mirrors, &mut self.sides, block, content, known);
    }
}

fn sends<T: Send>(x: T) -> T {
    x
}

// A caller's sides may go to another thread.
pub fn sides_cross<J: Naming + Send>(x: SidesIn<'_, J>) -> SidesIn<'_, J> {
    sends(x)
}
