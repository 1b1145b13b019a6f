// The place of a block in memory.
ghost use Rattle.std.specs.Prelude.{◌≡◌, ◌<◌, length, IfOk};
ghost use Rattle.ram_blocks.specs.Copies.{next_number};
ghost use Rattle.ram_blocks.specs.Plain.{IsCopiedOut, IsCopiedIn, IsWhole, fresh_block, no_plain, refusing, stored};

use crate::Copied;
use crate::plain_block::PlainBlock;
use block_machine::nv_base::Bytes;
use std::alloc::{AllocError, Global};
use std::marker::Model;

// A block that is synchronized, or of another one, which has no bytes, how many copies are to be refused.
#[derive(Drop)]
enum Placed {
    Synchronized(Box<PlainBlock>),
    Other { to_refuse: u64 },
}

/// The place of a block. One that isn't synchronized takes no more than the place itself. Contracts see the block.
#[derive(Drop)]
pub struct PlainPlace {
    placed: Placed,
}

impl Model for PlainPlace {
    ghost use Rattle.ram_blocks.specs.declared.plain_block.PlainBlock.{PlainBlock};
    ghost use Rattle.ram_blocks.specs.Plain.{IsWhole};
    ghost use Rattle.ram_blocks.specs.Places.{block_in};

    ghost Value = { PlainBlock };

    ghost view = { λ p. block_in p.placed };

    ghost invariant = { λ p. IsWhole (block_in p.placed) };
}

impl PlainPlace {
    /// A synchronized block before the first store, with these bytes.
    pub fn synchronized(alloc: Global, content: Bytes) -> Result<PlainPlace, AllocError>
        ensures { IfOk result (λ p. p ≡ fresh_block content) }
    {
        let block = PlainBlock::with(alloc, content)?;
        Ok(PlainPlace {
            placed: Placed::Synchronized(Box::new(alloc, block)?),
        })
    }

    /// A block that isn't synchronized. It takes no memory.
    pub fn other() -> PlainPlace
        ensures { result ≡ no_plain }
    {
        PlainPlace {
            placed: Placed::Other { to_refuse: 0 },
        }
    }

    /// How many bytes the block has: none where it isn't synchronized.
    pub fn len(&self) -> usize
        ensures value { result ≡ length self.now.content }
        ensures whole { IsWhole self.now }
    {
        match &self.placed {
            Placed::Synchronized(block) => block.content.len(),
            Placed::Other { .. } => 0,
        }
    }

    /// How many copies were refused.
    pub fn refusals(&self) -> u64
        ensures { result ≡ self.now.refusals }
    {
        match &self.placed {
            Placed::Synchronized(block) => block.refusals,
            Placed::Other { .. } => 0,
        }
    }

    /// Copies the content, unless the copy is to be refused.
    pub fn copy_out(&mut self, into: &mut [u8]) -> Copied
        requires some { 0 < length self.old.content }
        requires whole { length into.old ≡ length self.old.content }
        ensures { IsCopiedOut result into.new self.old self.new }
    {
        match &mut self.placed {
            Placed::Synchronized(block) => block.copy_out(into),
            Placed::Other { .. } => unreachable!(),
        }
    }

    /// Takes a content, unless the copy is to be refused.
    pub fn copy_in(&mut self, from: &[u8]) -> Copied
        requires some { 0 < length self.old.content }
        requires whole { length from.now ≡ length self.old.last }
        ensures { IsCopiedIn result from.now self.old self.new }
    {
        match &mut self.placed {
            Placed::Synchronized(block) => block.copy_in(from),
            Placed::Other { .. } => unreachable!(),
        }
    }

    /// Takes a store of the application, and answers its number.
    pub fn store(&mut self, content: &[u8]) -> u64
        requires some { 0 < length self.old.content }
        requires whole { length content.now ≡ length self.old.content }
        ensures number { result ≡ next_number self.old.number }
        ensures stored { self.new ≡ stored content.now self.old }
    {
        match &mut self.placed {
            Placed::Synchronized(block) => block.store(content),
            Placed::Other { .. } => unreachable!(),
        }
    }

    /// Refuses so many copies more.
    pub fn refuse(&mut self, count: u32)
        ensures { self.new ≡ refusing count self.old }
    {
        match &mut self.placed {
            Placed::Synchronized(block) => block.refuse(count),
            Placed::Other { to_refuse } => *to_refuse = to_refuse.saturating_add(u64::from(count)),
        }
    }
}
