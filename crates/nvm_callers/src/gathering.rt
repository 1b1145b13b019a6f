// The application's sides of synchronized blocks, given back by the callers.
ghost use Rattle.std.specs.Prelude.{◌≡◌, map, All};
ghost use Rattle.ram_mirrors_sync.specs.Blocks.{AreSidesOf, Pairs};
ghost use Rattle.nvm_callers.specs.Dealt.{AllGathered, AreApart, AreBelow, HasPlaces, IsFree, IsGathered};

use crate::SidesIn;
use crate::dealing::go_over;
use driver_moves::nvm_shared::{Known, Naming};
use ram_mirrors_sync::Sides;

// Puts those of one caller back among the others. They are of blocks below this one alone.
fn gather_one<N: Drop>(mut own: Sides<N>, sides: &mut Sides<N>, places: u16)
    requires sides { (ps : Pairs) × AreSidesOf ps own }
    requires places { HasPlaces own sides.old }
    requires free { IsFree own sides.old }
    requires below { AreBelow places own }
    ensures gathered { IsGathered own sides.old sides.new }
    ensures own { (ps : Pairs) → AreSidesOf ps own → AreSidesOf ps sides.old → AreSidesOf ps sides.new }
{
    for block in 0..places {
        go_over(&mut own, sides, block);
    }
}

/// Puts the sides of all callers back among the others. They are of blocks below this one alone.
pub fn gather<J: Naming>(sides: &mut Sides<Known<J>>, mut stores: Vec<SidesIn<'_, J>>, places: u16)
    requires apart { AreApart (map (λ s. s.sides) stores.items) sides.old }
    requires places { All (λ s. HasPlaces s.sides sides.old) stores.items }
    requires below { All (λ s. AreBelow places s.sides) stores.items }
    ensures gathered { AllGathered (map (λ s. s.sides) stores.entry.items) sides.old sides.new }
    ensures own { (ps : Pairs) → AreSidesOf ps sides.old → All (λ s. s.mirrors ≡ ps) stores.entry.items → AreSidesOf ps sides.new }
{
    for _back in 0..stores.len() {
        match stores.pop() {
            Some(own) => gather_one(own.into_sides(), sides, places),
            None => unreachable!(),
        }
    }
}
