// The sides of all synchronized blocks.
ghost use Rattle.std.specs.Prelude.{◌≡◌, ◌↔◌, ◌<◌, ℕ, IfOk, get_or, length, slice_set, Some, None, is_some, IfSome, IsTrue};
ghost use Rattle.ram_mirrors_sync.specs.Blocks.{AreIn, AreSidesOf, IsSideIn, Pairs, side_at};

use crate::mirrors::Mirrors;
use crate::side::Side;
use std::alloc::{AllocError, Global};
use std::marker::Model;

/// The sides of the synchronized blocks that no caller has. Contracts see the side of each block, by id.
#[derive(Drop)]
pub struct Sides<N> {
    pub(crate) sides: Vec<Option<Side<N>>>,
}

impl<N> Model for Sides<N> {
    ghost use Rattle.ram_mirrors_sync.specs.Blocks.{SideList};

    ghost Value = { SideList N };

    ghost view = { λ s. s.sides.items };
}

impl<N: Drop> Sides<N> {
    /// As many places as these have, with no side in them.
    #[tactic(auto, using(crate::proofs::Belonging::none_more))]
    pub fn none(alloc: Global, like: &Sides<N>) -> Result<Sides<N>, AllocError>
        ensures count { IfOk result (λ s. length s ≡ length like.now) }
        ensures none { IfOk result (λ s. (id : ℕ) → side_at s id ≡ None) }
        ensures own { IfOk result (λ s. (ps : Pairs) → AreSidesOf ps s) }
    {
        let mut sides = Vec::new(alloc);
        for _place in 0..like.sides.len() {
            sides.push(None)?;
        }
        Ok(Sides { sides })
    }

    /// Whether a block's side is in it.
    pub fn has(&self, block: u16) -> bool
        ensures { result ≡ is_some (side_at self.now block) }
    {
        matches!(self.sides.get(usize::from(block)), Some(Some(_)))
    }

    /// Whether each block with mirrors has its side in it.
    pub fn are_in(&self, mirrors: &Mirrors<N>) -> bool
        ensures { IsTrue result ↔ AreIn mirrors.now self.now }
    {
        for place in 0..self.sides.len().max(mirrors.pairs.len()) {
            if stands(&self.sides, place) != stands(&mirrors.pairs, place) {
                return false;
            }
        }
        true
    }

    /// Takes a block's side out. None comes exactly where it isn't in it.
    pub fn take(&mut self, block: u16) -> Option<Side<N>>
        ensures taken { result ≡ side_at self.old block }
        ensures left { self.new ≡ slice_set self.old block None }
        ensures place { IfSome result (λ s. block < length self.new) }
        ensures own { (ps : Pairs) → AreSidesOf ps self.old → AreSidesOf ps self.new × IfSome result (λ s. (s.block ≡ block) × IsSideIn ps s) }
    {
        taken(&mut self.sides, usize::from(block))
    }

    /// Puts a side back.
    pub fn put(&mut self, side: Side<N>)
        requires place { side.block < length self.old }
        requires out { side_at self.old side.block ≡ None }
        ensures new { self.new ≡ slice_set self.old side.block (Some side) }
        ensures own { (ps : Pairs) → AreSidesOf ps self.old → IsSideIn ps side → AreSidesOf ps self.new }
    {
        let place = usize::from(side.block);
        self.sides[place] = Some(side);
    }
}

// Whether something stands at a place.
fn stands<T>(list: &Vec<Option<T>>, place: usize) -> bool
    ensures { result ≡ is_some (get_or list.now.items place None) }
{
    matches!(list.get(place), Some(Some(_)))
}

// Takes out what stands at a place.
pub(crate) fn taken<T>(list: &mut Vec<Option<T>>, place: usize) -> Option<T>
    ensures taken { result ≡ get_or list.old.items place None }
    ensures left { list.new.items ≡ slice_set list.old.items place None }
{
    if place < list.len() {
        list[place].take()
    } else {
        None
    }
}
