// What a caller does, in order.
ghost use Rattle.std.specs.Prelude.{◌≡◌, ◌<◌, ◌≤◌, ◌^◌, ◌++◌, ◌∷◌, [], length, MatchOption, OnOk, OnErr, slice_get};

use crate::Deed;
use std::alloc::{AllocError, Global};
use std::marker::Model;

/// Deeds in order, fewer than 2^32. Contracts see the list.
#[derive(Drop)]
pub struct DeedList {
    items: Vec<Deed>,
}

impl Model for DeedList {
    ghost use Rattle.std.specs.Prelude.{List, ◌<◌, ◌^◌, length};
    ghost use Rattle.script_callers.specs.declared.deed.Deed.{Deed};

    ghost Value = { List Deed };

    ghost view = { λ l. l.items.items };

    ghost invariant = { λ l. length l.items.items < 2 ^ 32 };
}

impl DeedList {
    /// None.
    pub fn new(alloc: Global) -> DeedList
        ensures { result ≡ [] }
    {
        DeedList {
            items: Vec::new(alloc),
        }
    }

    /// How many stand here.
    pub fn len(&self) -> u32
        ensures { result ≡ length self.now }
    {
        self.items.len() as u32
    }

    /// The deed at a place, from 0. None exactly where the place isn't below `len`.
    pub fn get(&self, i: u32) -> Option<&Deed>
        ensures { MatchOption result (length self.now ≤ i) (λ d. slice_get self.now i ≡ Some d.now) }
    {
        self.items.get(i as usize)
    }

    /// Lends them.
    pub fn as_slice(&self) -> &[Deed]
        ensures items { result.now ≡ self.now }
        ensures few { length self.now < 2 ^ 32 }
    {
        &self.items
    }

    /// Adds one at the end.
    pub fn add(&mut self, deed: Deed) -> Result<(), AllocError>
        requires { length self.old < u32.MAX }
        ensures ok { OnOk result (self.new ≡ self.old ++ deed ∷ []) }
        ensures err { OnErr result (self.new ≡ self.old) }
    {
        self.items.push(deed)?;
        Ok(())
    }
}
