// Why a line is no configuration.
ghost use Rattle.std.specs.Prelude.{◌≡◌};
ghost use Rattle.block_config.specs.declared.fault.ConfigFault.TheVariants.{Memory};

use std::alloc::AllocError;
use std::error::Error;
use std::fmt;

/// Why no configuration was read: the first rule that the line breaks, by its number, with the block (0 where the
/// rule isn't about one block), or want of memory.
#[derive(Clone, Copy, Debug)]
pub enum ConfigFault {
    Broken { rule: u8, block: u16 },
    Memory,
}

impl fmt::Display for ConfigFault {
    fn fmt<W: fmt::Write>(&self, f: &mut fmt::Formatter<W>) -> fmt::Result {
        match *self {
            ConfigFault::Broken { rule, block: 0 } => {
                write!(f, "the configuration breaks rule {rule}")
            }
            ConfigFault::Broken { rule, block } => {
                write!(f, "the configuration breaks rule {rule} at block {block}")
            }
            ConfigFault::Memory => write!(f, "there is no memory to read the configuration"),
        }
    }
}

impl Error for ConfigFault {}

impl From<AllocError> for ConfigFault {
    ghost from_gives = { λ _ fault. fault ≡ Memory };

    fn from(_error: AllocError) -> ConfigFault {
        ConfigFault::Memory
    }
}
