// A list of entries with a cap.
ghost use Rattle.std.specs.Prelude.{◌≡◌, ◌≤◌, ◌<◌, ◌+◌, ◌-◌, ◌++◌, ◌∷◌, [], ◌↔◌, IsTrue, length, OnOk, OnErr, slice_get, Some, IfSome, MatchOption};

use crate::Entry;
use crate::repeated::{SLOTS, are_same, slot_of};
use std::alloc::{AllocError, Global};
use std::marker::Model;

/// The entries of a run in order, and how many there may be (its cap). An entry is never changed nor taken out.
/// Contracts see the entries, the cap, and for how many more entries memory is reserved.
///
/// A request with one byte many times that is the same as an earlier one, with the same caller and reply, mostly takes no more memory
/// than its place.
#[derive(Drop)]
pub struct History {
    // the entries, of which the same request stands here once
    stored: Vec<Entry>,
    // of each entry, where it stands there
    places: Vec<u32>,
    // where the latest long request of each slot stands
    latest: [u32; SLOTS],
    cap: u32,
    reserved: u32,
}

impl Model for History {
    ghost use Rattle.std.specs.Prelude.{vec_capacity};
    ghost use Rattle.nv_base.specs.History.{Listed, ArePlaced, placed};

    ghost Value = { Listed };

    ghost view = { λ h. record { entries = placed h.stored.items h.places.items; cap = h.cap; reserved = h.reserved } };

    ghost invariant = { λ h. ArePlaced h.stored.items h.places.items (vec_capacity h.stored) (vec_capacity h.places) h.cap h.reserved };
}

// Where an entry stands.
fn place_at(places: &[u32], i: u32) -> Option<u32>
    ensures { MatchOption result (length places.now ≤ i) (λ place. slice_get places.now i ≡ Some place) }
{
    match places.get(i as usize) {
        Some(place) => Some(*place),
        None => None,
    }
}

// This place, where the same entry stands there.
fn place_of(stored: &[Entry], place: u32, entry: &Entry) -> Option<u32>
    ensures { IfSome result (λ place. slice_get stored.now place ≡ Some entry.now) }
{
    match stored.get(place as usize) {
        Some(other) => {
            if are_same(other, entry) {
                return Some(place);
            }
            None
        }
        None => None,
    }
}

impl History {
    /// An empty history of at most `cap` entries.
    pub fn make(alloc: Global, cap: u32) -> History
        ensures empty { result.entries ≡ [] }
        ensures cap { result.cap ≡ cap }
    {
        History {
            stored: Vec::new(alloc),
            places: Vec::new(alloc),
            latest: [0; SLOTS],
            cap,
            reserved: 0,
        }
    }

    /// How many entries it has.
    pub fn len(&self) -> u32
        ensures count { result ≡ length self.now.entries }
        ensures within { length self.now.entries ≤ self.now.cap }
    {
        let _cap = self.cap;
        self.places.len() as u32
    }

    /// How many entries there may be.
    pub fn cap(&self) -> u32
        ensures { result ≡ self.now.cap }
    {
        self.cap
    }

    /// The entry at a place, from 0. None exactly where the place isn't below `len`.
    pub fn entry(&self, i: u32) -> Option<&Entry>
        ensures { MatchOption result (length self.now.entries ≤ i) (λ e. slice_get self.now.entries i ≡ Some e.now) }
    {
        match place_at(self.places.as_slice(), i) {
            Some(place) => Some(&self.stored[place as usize]),
            None => None,
        }
    }

    /// Sees that memory stands for `count` more entries, those that are reserved already counted. At Err nothing
    /// changed.
    pub fn reserve(&mut self, count: u32) -> Result<(), AllocError>
        ensures same { record self.new { reserved = self.old.reserved } ≡ self.old }
        ensures room { OnOk result (count ≤ self.new.reserved) }
        ensures grows { self.old.reserved ≤ self.new.reserved }
        ensures err { OnErr result (self.new ≡ self.old) }
    {
        if count <= self.reserved {
            return Ok(());
        }
        self.stored.reserve(count as usize)?;
        self.places.reserve(count as usize)?;
        self.reserved = count;
        Ok(())
    }

    /// Adds an entry behind the others, in memory that was reserved.
    #[inline(always)]
    pub fn add(&mut self, entry: Entry)
        requires below { length self.old.entries < self.old.cap }
        requires room { 0 < self.old.reserved }
        ensures { self.new ≡ record self.old { entries = self.old.entries ++ entry ∷ []; reserved = self.old.reserved - 1 } }
    {
        match slot_of(&entry) {
            Some(slot) => self.add_long(slot, entry),
            None => self.add_short(entry),
        }
    }

    // The same of one that is no request with a long content.
    #[inline(always)]
    fn add_short(&mut self, entry: Entry)
        requires below { length self.old.entries < self.old.cap }
        requires room { 0 < self.old.reserved }
        ensures { self.new ≡ record self.old { entries = self.old.entries ++ entry ∷ []; reserved = self.old.reserved - 1 } }
    {
        let place = self.stored.len() as u32;
        self.places.push_reserved(place);
        self.stored.push_reserved(entry);
        self.reserved -= 1;
    }

    // The same of one whose content has this slot.
    #[inline(never)]
    fn add_long(&mut self, slot: usize, entry: Entry)
        requires slot { slot < 8 }
        requires below { length self.old.entries < self.old.cap }
        requires room { 0 < self.old.reserved }
        ensures { self.new ≡ record self.old { entries = self.old.entries ++ entry ∷ []; reserved = self.old.reserved - 1 } }
    {
        if let Some(place) = place_of(self.stored.as_slice(), self.latest[slot], &entry) {
            self.places.push_reserved(place);
            self.reserved -= 1;
            return;
        }
        let place = self.stored.len() as u32;
        self.latest[slot] = place;
        self.places.push_reserved(place);
        self.stored.push_reserved(entry);
        self.reserved -= 1;
    }
}
