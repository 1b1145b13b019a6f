// The longest content of a configuration's blocks.
ghost use Rattle.std.specs.Prelude.{◌≤◌, ℕ};
ghost use Rattle.block_machine.specs.Blocks.{desc_of};

use block_machine::block_config::Config;
use nv_desk_state::length;

/// Bytes of the longest content.
pub fn longest_content(config: &Config) -> usize
    ensures { (id : ℕ) → (desc_of config.now id).length ≤ result }
{
    let mut longest = 0;
    for i in 0..config.blocks() {
        longest = greater(longest, length(config, i + 1));
    }
    usize::from(longest)
}

/// The greater one of two lengths.
pub fn greater(one: u16, other: u16) -> u16
    ensures one { one ≤ result }
    ensures other { other ≤ result }
{
    if one < other { other } else { one }
}
