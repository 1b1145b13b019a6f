// The application's side of a synchronized block.
ghost use Rattle.std.specs.Prelude.{⊤, ◌≡◌, length, MatchOption, IfSome, IsNone, IsSome, option_map};
ghost use Rattle.std.specs.Borrow.{sem, follows_so};
ghost use mathlib.Core.Option.{none};
ghost use Rattle.ram_mirrors.specs.Stores.{store_number};
ghost use Rattle.ram_mirrors.specs.Ends.{NothingNewer, TakesNewest};
ghost use Rattle.ram_mirrors_sync.specs.contracts.side.Side.{the_row};
ghost use Rattle.ram_mirrors_sync.specs.Blocks.{IsSideIn, IsNextStore, IsNextRead};

use crate::mirrors::Mirrors;
use ram_mirrors::{Owner, Taker};
use std::marker::Model;

/// The application's side of a synchronized block: it stores contents, and takes the contents that were read. Contracts see
/// the block, all stores, and what was taken.
#[derive(Drop)]
pub struct Side<N> {
    pub(crate) block: u16,
    pub(crate) up: Owner<N>,
    pub(crate) down: Taker<()>,
}

impl<N> Model for Side<N> {
    ghost use Rattle.std.specs.Prelude.{◌≡◌, length};
    ghost use Rattle.ram_mirrors_sync.specs.Blocks.{SideValue};

    ghost Value = { SideValue N };

    ghost view = { λ s. record { block = s.block; up = s.up; down = s.down } };

    ghost invariant = { λ s. length s.down.content ≡ s.up.size };
}

impl<N: Drop> Side<N> {
    /// The block that it is the side of.
    pub fn block(&self) -> u16
        ensures { result ≡ self.now.block }
    {
        self.block
    }

    /// The length of the block's contents in bytes.
    pub fn bytes(&self) -> usize
        ensures { result ≡ self.now.up.size }
    {
        self.down.content().len()
    }

    /// Stores a content of the block's length, hands a note along, and answers the store's number, from 1. It waits for nobody and
    /// takes no memory.
    pub fn store(&mut self, mirrors: &Mirrors<N>, content: &[u8], note: Option<N>) -> u64
        requires own { IsSideIn mirrors.now self.old }
        requires whole { length content.now ≡ self.old.up.size }
        ensures own { IsSideIn mirrors.now self.new }
        ensures stored { IsNextStore content.now note self.old self.new }
        ensures number { result ≡ store_number (length self.new.up.stores) }
    {
        mirrors
            .pair(self.block)
            .up
            .store(&mut self.up, content, note)
    }

    /// Looks once for a content that was read since the last one was taken. None comes exactly where there is none; else the
    /// newest is taken, for `content`, and its number is answered. It waits for nobody and takes no memory.
    pub fn refresh(&mut self, mirrors: &Mirrors<N>) -> Option<u64>
        requires own { IsSideIn mirrors.now self.old }
        ensures own { IsSideIn mirrors.now self.new }
        ensures taken { IsNextRead result self.old self.new }
    {
        mirrors.pair(self.block).down.refresh(&mut self.down)
    }

    /// `refresh`, with the content that it took.
    pub fn newest(&mut self, mirrors: &Mirrors<N>) -> Option<(u64, &[u8])>
        requires own { IsSideIn mirrors.now self.old }
        ensures* ends { sem 𝓛 (follows_so (the_row N.row) (the_row N.row) self.entry.ghost_name none (λ _ _. ⊤) (λ u. IsSideIn mirrors.now u × IsNextRead (option_map (λ p. p.0) result) self.old u × IfSome result (λ p. p.1.now ≡ u.down.content))) }
    {
        let found = self.refresh(mirrors);
        self.taken(found)
    }

    /// The content that was taken last, before the first one zeros.
    pub fn content(&self) -> &[u8]
        ensures { result.now ≡ self.now.down.content }
    {
        self.down.content()
    }

    fn taken(&self, found: Option<u64>) -> Option<(u64, &[u8])>
        ensures { MatchOption found (IsNone result) (λ n. IfSome result (λ p. (p.0 ≡ n) × (p.1.now ≡ self.now.down.content)) × IsSome result) }
    {
        match found {
            None => None,
            Some(number) => Some((number, self.down.content())),
        }
    }
}
