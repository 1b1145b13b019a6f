// The application's sides of synchronized blocks, dealt to the callers that store into them.
ghost use Rattle.std.specs.Prelude.{◌≡◌, ◌++◌, ◌∷◌, [], ℕ, List, length, map, vec_len, None, All, IfOk};
ghost use Rattle.ram_mirrors_sync.specs.Blocks.{AreSidesOf, Pairs, SideList, side_at};
ghost use Rattle.script_callers.specs.declared.deed.Deed.{Deed as Deeds};
ghost use Rattle.nvm_callers.specs.Dealt.{AllDealt, GoesOver, HasPlaces, IsDealt, IsFree};

use crate::SidesIn;
use driver_moves::nvm_shared::{Known, Naming};
use ram_mirrors_sync::{Mirrors, Sides};
use script_callers::{Deed, Program};
use std::alloc::{AllocError, Global};

// One side goes over, where it is in.
pub(crate) fn go_over<N: Drop>(from: &mut Sides<N>, to: &mut Sides<N>, block: u16)
    requires sides { (ps : Pairs) × AreSidesOf ps from.old }
    requires places { HasPlaces from.old to.old }
    requires free { IsFree from.old to.old }
    ensures over { GoesOver block from.old to.old from.new to.new }
    ensures own { (ps : Pairs) → AreSidesOf ps from.old → AreSidesOf ps to.old → AreSidesOf ps from.new × AreSidesOf ps to.new }
{
    match from.take(block) {
        Some(side) => to.put(side),
        None => {}
    }
}

// That of the block that a deed stores into, if it stores.
#[tactic(auto, using(crate::proofs::Moving::dealt_same))]
fn deal_by<N: Drop>(from: &mut Sides<N>, own: &mut Sides<N>, deed: &Deed)
    requires sides { (ps : Pairs) × AreSidesOf ps from.old }
    requires places { HasPlaces from.old own.old }
    requires free { IsFree from.old own.old }
    ensures dealt { (ds : List Deeds) (first : SideList N) → IsDealt ds first own.old from.old → IsDealt (ds ++ deed.now ∷ []) first own.new from.new × HasPlaces from.new own.new }
    ensures own { (ps : Pairs) → AreSidesOf ps from.old → AreSidesOf ps own.old → AreSidesOf ps from.new × AreSidesOf ps own.new }
{
    match deed {
        Deed::Store { block, .. } => go_over(from, own, *block),
        Deed::Ask { .. } => {}
        Deed::Await { .. } => {}
    }
}

// The sides of the blocks that these deeds store into go over to those of their caller, who has none yet.
fn deal_one<N: Drop>(from: &mut Sides<N>, own: &mut Sides<N>, deeds: &[Deed])
    requires sides { (ps : Pairs) × AreSidesOf ps from.old }
    requires places { HasPlaces from.old own.old }
    requires none { (block : ℕ) → side_at own.old block ≡ None }
    ensures dealt { IsDealt deeds.now from.old own.new from.new }
    ensures own { (ps : Pairs) → AreSidesOf ps from.old → AreSidesOf ps from.new × AreSidesOf ps own.new }
{
    for place in 0..deeds.len() {
        deal_by(from, own, &deeds[place]);
    }
}

/// Deals to each program the sides of the blocks that it stores into, from those that the programs before it left.
pub fn deal<'a, J: Naming>(
    alloc: Global,
    mirrors: &'a Mirrors<Known<J>>,
    sides: &mut Sides<Known<J>>,
    programs: &[Program],
) -> Result<Vec<SidesIn<'a, J>>, AllocError>
    requires own { AreSidesOf mirrors.now sides.old }
    ensures count { IfOk result (λ v. vec_len v ≡ length programs.now) }
    ensures dealt { IfOk result (λ v. AllDealt programs.now sides.old (map (λ s. s.sides) v.items) sides.new) }
    ensures mirrors { IfOk result (λ v. All (λ s. s.mirrors ≡ mirrors.now) v.items) }
    ensures own { AreSidesOf mirrors.now sides.new }
{
    let mut dealt = Vec::with_capacity(alloc, programs.len())?;
    for place in 0..programs.len() {
        let mut own = Sides::none(alloc, sides)?;
        deal_one(sides, &mut own, programs[place].deeds.as_slice());
        dealt.push(SidesIn::of(mirrors, own))?;
    }
    Ok(dealt)
}
