// The RAM that the manager keeps.
ghost use Rattle.std.specs.Prelude.{◌≡◌, length, map, get_or, slice_set, IfOk, option_copied};
ghost use Rattle.ram_blocks.specs.Kept.{zeros, no_ram, ram_by, kept_of};

use block_machine::block_config::{BlockDesc, Config, RamKind};
use std::alloc::{AllocError, Global};
use std::marker::Model;

/// Whether a RAM block is valid, and whether it is changed (NvM_SetRamBlockStatus).
#[derive(Clone, Copy)]
pub struct RamFlags {
    pub valid: bool,
    pub changed: bool,
}

const FRESH: RamFlags = RamFlags {
    valid: false,
    changed: false,
};

/// A block's RAM: its content, of no bytes where the manager keeps none, and its flags.
#[derive(Drop)]
pub struct RamBlock {
    content: Vec<u8>,
    flags: RamFlags,
}

impl Model for RamBlock {
    ghost use Rattle.ram_blocks.specs.Ram.{Ram};

    ghost Value = { Ram };

    ghost view = { λ r. record { content = r.content.items; flags = r.flags } };
}

impl RamBlock {
    // So many zeros, neither valid nor changed.
    fn zeros(alloc: Global, count: usize) -> Result<RamBlock, AllocError>
        ensures { IfOk result (λ b. b ≡ zeros count) }
    {
        Ok(RamBlock {
            content: vec![in alloc; 0; count]?,
            flags: FRESH,
        })
    }

    fn content(&self) -> &[u8]
        ensures { result.now ≡ self.now.content }
    {
        &self.content
    }

    fn flags(&self) -> RamFlags
        ensures { result ≡ self.now.flags }
    {
        self.flags
    }

    fn put(&mut self, content: &[u8])
        requires { length content.now ≡ length self.old.content }
        ensures { self.new ≡ record self.old { content = content.now } }
    {
        self.content.copy_from_slice(content);
    }

    fn set_flags(&mut self, flags: RamFlags)
        ensures { self.new ≡ record self.old { flags = flags } }
    {
        self.flags = flags;
    }

    fn clear(&mut self)
        ensures { self.new ≡ zeros (length self.old.content) }
    {
        self.content.fill(0);
        self.flags = FRESH;
    }
}

/// The RAM of all blocks. The manager keeps that of permanent RAM blocks and of block 1, its own. Contracts see a block
/// for each id.
#[derive(Drop)]
pub struct RamBlocks {
    blocks: Vec<RamBlock>,
}

impl Model for RamBlocks {
    ghost use Rattle.std.specs.Prelude.{List};
    ghost use Rattle.ram_blocks.specs.declared.kept.RamBlock.{RamBlock};

    ghost Value = { List RamBlock };

    ghost view = { λ r. r.blocks.items };
}

impl RamBlocks {
    /// The RAM of a configuration's blocks, zeros, neither valid nor changed. It takes all the memory that it ever needs.
    pub fn make(alloc: Global, config: &Config) -> Result<RamBlocks, AllocError>
        ensures { IfOk result (λ r. r ≡ kept_of config.now) }
    {
        let mut blocks = Vec::with_capacity(alloc, usize::from(config.blocks()) + 1)?;
        blocks.push(ram_of(alloc, 0, None)?)?;
        for i in 0..config.blocks() {
            blocks.push(ram_of(alloc, i + 1, config.block(i + 1))?)?;
        }
        Ok(RamBlocks { blocks })
    }

    /// What the RAM of a block holds, nothing where the manager keeps none.
    pub fn get(&self, block: u16) -> &[u8]
        ensures { result.now ≡ (get_or self.now block no_ram).content }
    {
        match self.blocks.get(usize::from(block)) {
            Some(one) => one.content(),
            None => &[],
        }
    }

    /// Puts a content into the RAM of a block, of its length. It does nothing for an id that isn't configured.
    pub fn put(&mut self, block: u16, content: &[u8])
        requires { length content.now ≡ length (get_or self.old block no_ram).content }
        ensures { self.new ≡ slice_set self.old block (record (get_or self.old block no_ram) { content = content.now }) }
    {
        if usize::from(block) < self.blocks.len() {
            self.blocks[usize::from(block)].put(content);
        }
    }

    /// Whether the RAM of a block is valid and changed.
    pub fn flags(&self, block: u16) -> RamFlags
        ensures { result ≡ (get_or self.now block no_ram).flags }
    {
        match self.blocks.get(usize::from(block)) {
            Some(one) => one.flags(),
            None => FRESH,
        }
    }

    /// Says whether the RAM of a block is valid and changed. It does nothing for an id that isn't configured.
    pub fn set_flags(&mut self, block: u16, flags: RamFlags)
        ensures { self.new ≡ slice_set self.old block (record (get_or self.old block no_ram) { flags = flags }) }
    {
        if usize::from(block) < self.blocks.len() {
            self.blocks[usize::from(block)].set_flags(flags);
        }
    }

    /// Puts zeros into the RAM of each block, which is neither valid nor changed then.
    pub fn clear(&mut self)
        ensures { self.new ≡ map (λ r. zeros (length r.content)) self.old }
    {
        for i in 0..self.blocks.len() {
            self.blocks[i].clear();
        }
    }
}

// The RAM of the block with this id, if there is one, before anything was put.
fn ram_of(alloc: Global, id: u16, desc: Option<&BlockDesc>) -> Result<RamBlock, AllocError>
    ensures { IfOk result (λ b. b ≡ ram_by id (option_copied desc.entry)) }
{
    let length = match desc {
        Some(desc) if id == 1 || desc.ram == RamKind::Permanent => desc.length,
        _ => 0,
    };
    RamBlock::zeros(alloc, usize::from(length))
}
