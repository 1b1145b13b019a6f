// What the text of a configuration says.
ghost use Rattle.std.specs.Prelude.{◌≡◌};
ghost use Rattle.nvm_c.specs.Texts.{IsChecked, facts_of, flag, kind_number, ram_number};

use nvm::{BlockDesc, BlockKind, ConfigFault, RamKind, read};
use std::alloc::Global;

/// What a configuration says of a block, by the keys of its text. A flag is 0 or 1.
#[repr(C)]
#[derive(Clone, Copy)]
pub struct BlockFacts {
    /// How many ROM datasets, whose indices follow those of the stored ones.
    pub roms: u32,
    /// Bytes of a content.
    pub length: u16,
    /// 0 native, 1 redundant, 2 dataset.
    pub kind: u8,
    /// Stored datasets of a dataset, 0 for the other kinds.
    pub nv: u8,
    /// 0 none, 1 a permanent RAM block, 2 one that is synchronized by copies.
    pub ram: u8,
    pub has_defaults: u8,
    pub in_readall: u8,
    pub in_writeall: u8,
    pub write_once: u8,
    pub write_protected: u8,
    pub resistant: u8,
    /// 0 is immediate, 255 the lowest.
    pub priority: u8,
    /// Further tries of a read, of a write, and of a copy to or from the application.
    pub reads: u8,
    pub writes: u8,
    pub repeats: u8,
    /// The device that stores it: 0, or 1 for the second one.
    pub device: u8,
}

/// What is wrong with the text of a configuration. 0: nothing. 1: it breaks the rule whose number is in `rule`, the first by number, at
/// the block in `block`, the first that does, or 0 where the rule isn't about one block. 4: there is no memory to say.
#[unsafe(no_mangle)]
pub extern "C" fn nvm_check(alloc: Global, text: &[u8], rule: &mut u8, block: &mut u16) -> u8
    ensures { IsChecked text.now result rule.new block.new }
{
    *rule = 0;
    *block = 0;
    match read(alloc, text) {
        Ok(_config) => 0,
        Err(
            ConfigFault::Broken {
                rule: broken,
                block: at,
            },
        ) => {
            *rule = broken;
            *block = at;
            1
        }
        Err(ConfigFault::Memory) => 4,
    }
}

fn kind_number(kind: BlockKind) -> u8
    ensures { result ≡ kind_number kind }
{
    match kind {
        BlockKind::Native => 0,
        BlockKind::Redundant => 1,
        BlockKind::Dataset => 2,
    }
}

fn ram_number(ram: RamKind) -> u8
    ensures { result ≡ ram_number ram }
{
    match ram {
        RamKind::None => 0,
        RamKind::Permanent => 1,
        RamKind::Sync => 2,
    }
}

fn flag(on: bool) -> u8
    ensures { result ≡ flag on }
{
    if on { 1 } else { 0 }
}

/// A description as C gets it.
pub(crate) fn facts_of(block: &BlockDesc) -> BlockFacts
    ensures { result ≡ facts_of block.now }
{
    BlockFacts {
        roms: block.rom.len(),
        length: block.length,
        kind: kind_number(block.kind),
        nv: block.nv,
        ram: ram_number(block.ram),
        has_defaults: flag(block.defaults.is_some()),
        in_readall: flag(block.readall),
        in_writeall: flag(block.writeall),
        write_once: flag(block.once),
        write_protected: flag(block.protected),
        resistant: flag(block.resistant),
        priority: block.priority,
        reads: block.reads,
        writes: block.writes,
        repeats: block.repeats,
        device: block.device,
    }
}
