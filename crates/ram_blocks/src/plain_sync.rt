// The application's side in memory.
ghost use Rattle.std.specs.Prelude.{◌≡◌, length, map, get_or, slice_set, IfOk, [], option_copied, option_map, unwrap_or, replicate};
ghost use Rattle.ram_blocks.specs.Copies.{next_number};
ghost use Rattle.ram_blocks.specs.Told.{IsSynchronized, told_at};
ghost use Rattle.ram_blocks.specs.Plain.{told_of, store_of, no_plain, stored, refusing, plain_of, plain_by, plain_blocks_of};

use crate::plain_place::PlainPlace;
use crate::{Copied, SyncCalls};
use block_machine::block_config::{BlockDesc, Config, RamKind};
use block_machine::nv_base::{Bytes, bytes_of};
use std::alloc::{AllocError, Global};
use std::marker::Model;

/// The synchronized blocks of a configuration in memory: the application's stores, and the copies that it refuses.
/// Contracts see a block for each id.
#[derive(Drop)]
pub struct PlainSync {
    blocks: Vec<PlainPlace>,
}

impl Model for PlainSync {
    ghost use Rattle.std.specs.Prelude.{List, All};
    ghost use Rattle.ram_blocks.specs.declared.plain_block.PlainBlock.{PlainBlock};
    ghost use Rattle.ram_blocks.specs.Plain.{IsWhole};

    ghost Value = { List PlainBlock };

    ghost view = { λ p. p.blocks.items };

    ghost invariant = { λ p. All IsWhole p.blocks.items };
}

impl PlainSync {
    /// The synchronized blocks of a configuration before the first store. It takes all the memory that it ever needs.
    pub fn make(alloc: Global, config: &Config) -> Result<PlainSync, AllocError>
        ensures { IfOk result (λ p. p ≡ plain_blocks_of config.now) }
    {
        let mut blocks = Vec::with_capacity(alloc, usize::from(config.blocks()) + 1)?;
        blocks.push(plain_of(alloc, None)?)?;
        for i in 0..config.blocks() {
            blocks.push(plain_of(alloc, config.block(i + 1))?)?;
        }
        Ok(PlainSync { blocks })
    }

    /// The bytes of a synchronized block, None of any other.
    pub fn bytes(&self, block: u16) -> Option<usize>
        ensures { result ≡ option_map (λ s. s.bytes) (told_at (map told_of self.now) block) }
    {
        match self.blocks.get(usize::from(block)) {
            Some(one) if one.len() != 0 => Some(one.len()),
            _ => None,
        }
    }

    /// The application stores a content of a synchronized block. Answers the store's number, from 1.
    pub fn store(&mut self, block: u16, content: &[u8]) -> u64
        requires { IsSynchronized (map told_of self.old) block (length content.now) }
        ensures number { result ≡ next_number (get_or self.old block no_plain).number }
        ensures stored { self.new ≡ slice_set self.old block (stored content.now (get_or self.old block no_plain)) }
    {
        self.blocks[usize::from(block)].store(content)
    }

    /// So many next copies of a block are refused.
    pub fn refuse(&mut self, block: u16, count: u32)
        ensures { self.new ≡ slice_set self.old block (refusing count (get_or self.old block no_plain)) }
    {
        if usize::from(block) < self.blocks.len() {
            self.blocks[usize::from(block)].refuse(count);
        }
    }
}

// A block before the first store, of which the application holds the defaults, or zeros.
fn plain_of(alloc: Global, desc: Option<&BlockDesc>) -> Result<PlainPlace, AllocError>
    ensures { IfOk result (λ p. p ≡ plain_by (option_copied desc.entry)) }
{
    match desc {
        Some(desc) if desc.ram == RamKind::Sync => {
            PlainPlace::synchronized(alloc, first_content(alloc, desc)?)
        }
        _ => Ok(PlainPlace::other()),
    }
}

// The defaults of a block, or zeros.
fn first_content(alloc: Global, desc: &BlockDesc) -> Result<Bytes, AllocError>
    ensures { IfOk result (λ b. b ≡ unwrap_or desc.now.defaults (replicate desc.now.length 0)) }
{
    match &desc.defaults {
        Some(defaults) => bytes_of(alloc, defaults.as_slice()),
        None => Bytes::zeros(alloc, usize::from(desc.length)),
    }
}

impl SyncCalls for PlainSync {
    ghost told = { λ p. map told_of p };

    ghost is_store = { λ p b n x. get_or (map store_of p) b (0, []) ≡ (n, x) };

    ghost looked = { λ old new b n. Unit {0} };

    ghost over = { λ first now. Unit {0} };

    fn copy_out(&mut self, block: u16, into: &mut [u8]) -> Copied {
        self.blocks[usize::from(block)].copy_out(into)
    }

    fn copy_in(&mut self, block: u16, from: &[u8]) -> Copied {
        self.blocks[usize::from(block)].copy_in(from)
    }

    fn refusals(&self, block: u16) -> u64 {
        match self.blocks.get(usize::from(block)) {
            Some(one) if one.len() != 0 => one.refusals(),
            _ => 0,
        }
    }
}
