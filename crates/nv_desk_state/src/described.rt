// What the configuration says of a block. An id that isn't configured counts as a block without bytes.
ghost use Rattle.std.specs.Prelude.{◌≡◌, ◌+◌, ◌≤◌, length, is_none};
ghost use Rattle.block_machine.specs.block_config.Block.{record_count};
ghost use Rattle.block_machine.specs.Blocks.{desc_of, is_dataset, is_permanent};
ghost use Rattle.block_machine.specs.Reply.{has_no_ram};

use block_machine::block_config::{BlockKind, Config, RamKind};

pub fn is_dataset(config: &Config, id: u16) -> bool
    ensures { result ≡ is_dataset (desc_of config.now id).kind }
{
    matches!(config.block(id), Some(desc) if desc.kind == BlockKind::Dataset)
}

/// How many datasets a block has, stored and ROM.
pub fn datasets(config: &Config, id: u16) -> u64
    ensures { result ≡ (desc_of config.now id).nv + length (desc_of config.now id).rom }
{
    match config.block(id) {
        Some(desc) => u64::from(desc.nv) + u64::from(desc.rom.len()),
        None => 0,
    }
}

/// How many stored datasets a block has.
pub fn stored(config: &Config, id: u16) -> u8
    ensures { result ≡ (desc_of config.now id).nv }
{
    match config.block(id) {
        Some(desc) => desc.nv,
        None => 0,
    }
}

/// Bytes of a block's content.
pub fn length(config: &Config, id: u16) -> u16
    ensures { result ≡ (desc_of config.now id).length }
{
    match config.block(id) {
        Some(desc) => desc.length,
        None => 0,
    }
}

pub fn is_permanent(config: &Config, id: u16) -> bool
    ensures { result ≡ is_permanent (desc_of config.now id).ram }
{
    matches!(config.block(id), Some(desc) if desc.ram == RamKind::Permanent)
}

pub fn has_no_ram(config: &Config, id: u16) -> bool
    ensures { result ≡ has_no_ram (desc_of config.now id).ram }
{
    match config.block(id) {
        Some(desc) => desc.ram == RamKind::None,
        None => true,
    }
}

pub fn has_no_defaults(config: &Config, id: u16) -> bool
    ensures { result ≡ is_none (desc_of config.now id).defaults }
{
    match config.block(id) {
        Some(desc) => desc.defaults.is_none(),
        None => true,
    }
}

pub fn priority(config: &Config, id: u16) -> u8
    ensures { result ≡ (desc_of config.now id).priority }
{
    match config.block(id) {
        Some(desc) => desc.priority,
        None => 100,
    }
}

/// Whether a block is write-once.
pub fn is_once(config: &Config, id: u16) -> bool
    ensures { result ≡ (desc_of config.now id).once }
{
    matches!(config.block(id), Some(desc) if desc.once)
}

/// The records of one write of a block.
pub fn records(config: &Config, id: u16) -> u8
    ensures value { result ≡ record_count (desc_of config.now id).kind }
    ensures few { result ≤ 2 }
{
    match config.block(id) {
        Some(desc) => desc.kind.records(),
        None => 1,
    }
}
