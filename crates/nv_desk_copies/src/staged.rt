// How long a content may be that has to stand beside the desk.
ghost use Rattle.std.specs.Prelude.{◌≡◌, ◌≤◌, ℕ};
ghost use Rattle.block_machine.specs.Blocks.{desc_of};
ghost use Rattle.nv_desk_copies.specs.Front.{staged_length};

use crate::synchronized::is_synchronized;
use block_machine::block_config::Config;
use nv_desk::greater;

/// Bytes of the longest content that is a copy of synchronized RAM, or that the configuration gives.
pub fn longest_staged(config: &Config) -> usize
    ensures { (id : ℕ) → staged_length (desc_of config.now id) ≤ result }
{
    let mut longest = 0;
    for i in 0..config.blocks() {
        longest = greater(longest, staged_length(config, i + 1));
    }
    usize::from(longest)
}

// How many bytes of a block's content may.
fn staged_length(config: &Config, id: u16) -> u16
    ensures { result ≡ staged_length (desc_of config.now id) }
{
    let Some(desc) = config.block(id) else {
        return 0;
    };
    if is_synchronized(config, id) || desc.defaults.is_some() || desc.rom.get(0).is_some() {
        desc.length
    } else {
        0
    }
}
