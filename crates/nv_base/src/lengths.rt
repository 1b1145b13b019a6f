// The configured device numbers with their lengths.
ghost use Rattle.std.specs.Prelude.{◌≡◌, ◌≢◌, ◌↔◌, true, ◌<◌, ◌≤◌, ◌++◌, ◌∷◌, [], ℕ, All, IsTrue, length, Some, MatchOption, IfOk, OnOk, OnErr, slice_get};
ghost use Rattle.nv_base.specs.Lengths.{AreLengths, IsPlace, last_or, place_of};

use crate::{DeviceNumber, instance_of};
use std::alloc::{AllocError, Global};
use std::marker::Model;

/// Device numbers with the lengths of their contents in bytes, ascending. No number is 0 or 65,535, and each length
/// is 1 to 4,096. Contracts see the list.
#[derive(Clone, Drop)]
pub struct Lengths {
    items: Vec<(DeviceNumber, u16)>,
}

impl Model for Lengths {
    ghost use Rattle.std.specs.Prelude.{List, ℕ};
    ghost use Rattle.nv_base.specs.declared.instance.DeviceNumber.{DeviceNumber};
    ghost use Rattle.nv_base.specs.Lengths.{AreLengths};

    ghost Value = { List (DeviceNumber × ℕ) };

    ghost view = { λ l. l.items.items };

    ghost invariant = { λ l. AreLengths 0 l.items.items };
}

impl Lengths {
    /// No numbers.
    pub fn new(alloc: Global) -> Lengths
        ensures { result ≡ [] }
    {
        Lengths {
            items: Vec::new(alloc),
        }
    }

    /// How many numbers stand here.
    pub fn len(&self) -> u32
        ensures count { result ≡ length self.now }
        ensures bounds { AreLengths 0 self.now }
    {
        self.items.len() as u32
    }

    /// The number and length at a place, from 0. None exactly where the place isn't below `len`.
    pub fn get(&self, i: u32) -> Option<(DeviceNumber, u16)>
        ensures { MatchOption result (length self.now ≤ i) (λ r. slice_get self.now i ≡ Some r) }
    {
        self.items.get(i as usize).copied()
    }

    /// Lends the numbers with their lengths.
    pub fn as_slice(&self) -> &[(DeviceNumber, u16)]
        ensures value { result.now ≡ self.now }
        ensures bounds { AreLengths 0 self.now }
    {
        &self.items
    }

    /// The place of a number, from 0. None exactly where the number doesn't stand here. It looks first where a number
    /// stands as long as each block behind block 1 has one instance, and else makes a binary search.
    pub fn place_of(&self, number: DeviceNumber) -> Option<usize>
        ensures value { result ≡ place_of self.now number.0 }
        ensures place { MatchOption result (All (λ x. x.0.0 ≢ number.0) self.now) (IsPlace self.now number.0) }
        ensures only { (i : ℕ) → IsPlace self.now number.0 i → result ≡ Some i }
    {
        let place = usize::from(instance_of(number).block);
        if is_at(self.as_slice(), number, place) {
            return Some(place);
        }
        self.search(number)
    }

    // The place of a number by a binary search.
    fn search(&self, number: DeviceNumber) -> Option<usize>
        ensures value { result ≡ place_of self.now number.0 }
        ensures place { MatchOption result (All (λ x. x.0.0 ≢ number.0) self.now) (IsPlace self.now number.0) }
        ensures only { (i : ℕ) → IsPlace self.now number.0 i → result ≡ Some i }
    {
        let wanted = number.0;
        self.items.binary_search_by_key(&wanted, |x| x.0.0).ok()
    }

    /// Adds a number above all others.
    pub fn add(&mut self, number: DeviceNumber, length: u16) -> Result<(), AllocError>
        requires above { last_or 0 self.old < number.0 }
        requires number { number.0 < 65535 }
        requires some { 1 ≤ length }
        requires most { length ≤ 4096 }
        ensures ok { OnOk result (self.new ≡ self.old ++ (number, length) ∷ []) }
        ensures err { OnErr result (self.new ≡ self.old) }
    {
        self.items.push((number, length))?;
        Ok(())
    }
}

// Whether a number stands at a place.
fn is_at(numbers: &[(DeviceNumber, u16)], number: DeviceNumber, place: usize) -> bool
    ensures { result ≡ true → IsPlace numbers.now number.0 place }
{
    match numbers.get(place) {
        Some(item) => item.0.0 == number.0,
        None => false,
    }
}

/// Whether these numbers ascend, none is 0 or 65,535, and each length is 1 to 4,096.
pub fn are_lengths(items: &[(DeviceNumber, u16)]) -> bool
    ensures { IsTrue result ↔ AreLengths 0 items.now }
{
    let mut low = 0;
    for item in items {
        if item.0.0 <= low || item.0.0 == 65535 || item.1 == 0 || item.1 > 4096 {
            return false;
        }
        low = item.0.0;
    }
    true
}

/// The list of these numbers with their lengths.
pub fn lengths_of(alloc: Global, items: &[(DeviceNumber, u16)]) -> Result<Lengths, AllocError>
    requires { AreLengths 0 items.now }
    ensures { IfOk result (λ l. l ≡ items.now) }
{
    Ok(Lengths {
        items: items.to_vec(alloc)?,
    })
}
