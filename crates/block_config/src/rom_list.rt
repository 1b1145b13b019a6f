// The ROM datasets of a block.
ghost use Rattle.std.specs.Prelude.{◌≡◌, ◌<◌, ◌≤◌, ◌+◌, ◌^◌, ◌++◌, ◌∷◌, [], length, Some, MatchOption, OnOk, OnErr, IfErr, IfOk, slice_get};

use nv_base::{Bytes, bytes_of};
use std::alloc::{AllocError, AllocFailed, Global};
use std::marker::Model;

/// The contents of a block's ROM datasets. Contracts see the list.
#[derive(Drop)]
pub struct RomList {
    items: Vec<Bytes>,
}

impl Model for RomList {
    ghost use Rattle.std.specs.Prelude.{List, ℕ, length, ◌<◌, ◌^◌};

    ghost Value = { List (List ℕ) };

    ghost view = { λ r. r.items.items };

    ghost invariant = { λ r. length r.items.items < 2 ^ 32 };
}

impl RomList {
    /// No contents.
    pub fn new(alloc: Global) -> RomList
        ensures { result ≡ [] }
    {
        RomList {
            items: Vec::new(alloc),
        }
    }

    /// The same contents once more.
    pub(crate) fn copied(&self, alloc: Global) -> Result<RomList, AllocError>
        ensures { IfOk result (λ r. r ≡ self.now) }
    {
        let mut items = Vec::with_capacity(alloc, self.items.len())?;
        for content in &self.items {
            items.push(bytes_of(alloc, content.as_slice())?)?;
        }
        Ok(RomList { items })
    }

    /// How many contents it holds.
    pub fn len(&self) -> u32
        ensures { result ≡ length self.now }
    {
        self.items.len() as u32
    }

    /// The content at a place, from 0. None exactly where the place isn't below `len`.
    pub fn get(&self, i: u32) -> Option<&Bytes>
        ensures { MatchOption result (length self.now ≤ i) (λ b. slice_get self.now i ≡ Some b.now) }
    {
        self.items.get(i as usize)
    }

    /// Adds a content at the end. At Err it is handed back.
    pub fn add(&mut self, content: Bytes) -> Result<(), AllocFailed<Bytes>>
        requires { length self.old + 1 < 2 ^ 32 }
        ensures ok { OnOk result (self.new ≡ self.old ++ content ∷ []) }
        ensures err { OnErr result (self.new ≡ self.old) }
        ensures handed_back { IfErr result (λ failed. failed.value ≡ content) }
    {
        self.items.push(content)
    }
}
