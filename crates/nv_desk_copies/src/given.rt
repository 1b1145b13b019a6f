// What a job gives.
ghost use Rattle.std.specs.Prelude.{◌≡◌, ◌≤◌, ◌-◌, ℕ, List, length, option_copied, slice_get, IfSome};
ghost use Rattle.block_machine.specs.Blocks.{desc_of};
ghost use Rattle.block_machine.specs.nv_base.declared.job.GivenFrom.TheVariants as GivenFrom;
ghost use Rattle.nv_desk_copies.specs.Front.{StagesAll, given_if, staged_length};
ghost use Rattle.nv_desk.specs.Picks.{lent_or};
ghost use Rattle.nv_desk_copies.specs.Posts.{given_from};

use crate::Staging;
use block_machine::block_config::Config;
use block_machine::nv_base::GivenFrom;

/// Stages what comes from a source, but for what the device gave, which stands where it is. It answers whether there is something.
pub fn stage_given(
    config: &Config,
    staging: &mut Staging,
    block: u16,
    index: u8,
    source: GivenFrom,
    content: &[u8],
) -> bool
    requires whole { source ≡ GivenFrom.Device → length content.now ≡ (desc_of config.now block).length }
    requires staging { StagesAll config.now staging.old }
    ensures given { given_if result (lent_or content.now staging.new.bytes) ≡ given_from (desc_of config.now block) index content.now source }
    ensures whole { IfSome (given_if result (lent_or content.now staging.new.bytes)) (λ x. length x ≡ (desc_of config.now block).length) }
    ensures room { staging.new.room ≡ staging.old.room }
{
    match source {
        GivenFrom::Nothing => false,
        GivenFrom::Device => {
            staging.clear();
            true
        }
        GivenFrom::Defaults => put(staging, defaults_of(config, block)),
        GivenFrom::Rom => put(staging, rom_of(config, block, index)),
    }
}

// Puts a content there, and answers whether there is one.
fn put(staging: &mut Staging, content: Option<&[u8]>) -> bool
    requires room { IfSome (option_copied content) (λ x. length x ≤ staging.old.room) }
    ensures given { (other : List ℕ) → given_if result (lent_or other staging.new.bytes) ≡ option_copied content.entry }
    ensures room { staging.new.room ≡ staging.old.room }
{
    match content {
        Some(content) => {
            staging.put(content);
            true
        }
        None => false,
    }
}

/// The defaults of a block, if it has some.
pub fn defaults_of(config: &Config, block: u16) -> Option<&[u8]>
    ensures given { option_copied result ≡ (desc_of config.now block).defaults }
    ensures whole { IfSome (option_copied result) (λ x. length x ≡ (desc_of config.now block).length) }
    ensures staged { IfSome (option_copied result) (λ x. length x ≤ staged_length (desc_of config.now block)) }
{
    let desc = config.block(block)?;
    match &desc.defaults {
        Some(defaults) => Some(defaults.as_slice()),
        None => None,
    }
}

// The ROM dataset of a block that a data index names, if it names one.
fn rom_of(config: &Config, block: u16, index: u8) -> Option<&[u8]>
    ensures given { option_copied result ≡ slice_get (desc_of config.now block).rom (index - (desc_of config.now block).nv) }
    ensures whole { IfSome (option_copied result) (λ x. length x ≡ (desc_of config.now block).length) }
    ensures staged { IfSome (option_copied result) (λ x. length x ≤ staged_length (desc_of config.now block)) }
{
    let desc = config.block(block)?;
    match desc.rom.get(u32::from(index.saturating_sub(desc.nv))) {
        Some(rom) => Some(rom.as_slice()),
        None => None,
    }
}
