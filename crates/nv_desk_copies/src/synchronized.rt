// Synchronized blocks.
ghost use Rattle.std.specs.Prelude.{◌≡◌, ◌+◌};
ghost use Rattle.block_machine.specs.Blocks.{desc_of, is_synchronized};

use block_machine::block_config::{Config, RamKind};

/// Whether a block's RAM is the application's, and is reached by copies.
pub fn is_synchronized(config: &Config, block: u16) -> bool
    ensures { result ≡ is_synchronized (desc_of config.now block).ram }
{
    match config.block(block) {
        Some(desc) => matches!(desc.ram, RamKind::Sync),
        None => false,
    }
}

/// How often a copy of a block is tried.
pub fn tries(config: &Config, block: u16) -> u8
    ensures { result ≡ (desc_of config.now block).repeats + 1 }
{
    match config.block(block) {
        Some(desc) => desc.repeats + 1,
        None => 1,
    }
}
