// Reading a configuration from its line.
ghost use Rattle.std.specs.Prelude.{◌≡◌, ◌⊎◌, ◌≤◌, ◌∷◌, IfOk, IfErr, IfSome, OnOk, Ok, Err, None, length, map, codes};
ghost use Rattle.std.specs.Str.{bytes_eq};
ghost use Rattle.serde_json.specs.View.{view};
ghost use Rattle.nv_base.specs.Geometry.{IsLegal, HasBanks, pages_of_bank};
ghost use Rattle.block_config.specs.Block.{manager_block};
ghost use Rattle.block_config.specs.Item.{block_of};
ghost use Rattle.block_config.specs.Reading.{first_fault, item_rules, sized, described, config_of, meaning_of};
ghost use Rattle.block_config.specs.Rules.{IsQueueSize};
ghost use Rattle.block_config.specs.Sizes.{need_of};

use crate::head::{Head, banks_at, blocks_at, broken, head_of};
use crate::item::Item;
use crate::items::{blocks_of, device_fault, first_fault, items_of};
use crate::second::second_of;
use crate::sizes::{Measures, measures_of};
use crate::{BlockDesc, Config, ConfigFault, demo};
use nv_base::Geometry;
use serde_json::Value;
use std::alloc::Global;

/// Reads a configuration from its line: `@demo`, or a JSON object. `Broken` comes only where the line breaks a rule, with
/// the first broken rule by number, and within a rule with the first block.
pub fn read(alloc: Global, line: &[u8]) -> Result<Config, ConfigFault>
    ensures ok { IfOk result (λ c. meaning_of line.now ≡ Ok c) }
    ensures err { IfErr result (λ fault. (fault ≡ ConfigFault.Memory) ⊎ (meaning_of line.now ≡ Err fault)) }
{
    if is_demo(line) {
        return Ok(demo(alloc)?);
    }
    match Value::from_slice(alloc, line) {
        Ok(value) => config_of(alloc, &value),
        Err(error) => if error.is_memory() {
            Err(ConfigFault::Memory)
        } else {
            Err(broken(1))
        },
    }
}

fn is_demo(line: &[u8]) -> bool
    ensures { result ≡ bytes_eq line.now (codes "@demo") }
{
    line == b"@demo".as_slice()
}

/// The configuration that a value is.
fn config_of(alloc: Global, value: &Value) -> Result<Config, ConfigFault>
    ensures ok { IfOk result (λ c. config_of (view value.now) ≡ Ok c) }
    ensures err { IfErr result (λ fault. (fault ≡ ConfigFault.Memory) ⊎ (config_of (view value.now) ≡ Err fault)) }
{
    let head = head_of(value)?;
    let values = blocks_at(value).ok_or(broken(10))?;
    let items = items_of(alloc, values)?;
    if let Some(fault) = first_fault(&items) {
        return Err(fault);
    }
    let blocks = blocks_of(alloc, head.id, &items)?;
    described(head, value, &items, blocks)
}

/// The configuration of a head and blocks that keep their rules, or the first of those behind that is broken.
fn described(
    head: Head,
    value: &Value,
    items: &[Item],
    blocks: Vec<BlockDesc>,
) -> Result<Config, ConfigFault>
    requires geometry { IsLegal head.geometry }
    requires standard { IsQueueSize head.standard }
    requires immediate { IsQueueSize head.immediate }
    requires some { 1 ≤ length items.now }
    requires few { length items.now ≤ 511 }
    requires kept { first_fault item_rules (map view items.now) ≡ None }
    requires blocks { blocks.items ≡ manager_block head.id ∷ map block_of (map view items.now) }
    ensures { result ≡ described head (view value.now) (map view items.now) blocks.items }
{
    let shared = banks_at(value, head.geometry);
    let measures = measures_of(&blocks, head.geometry.page);
    sized(head.geometry, shared, measures)?;
    if let Some(fault) = device_fault(items) {
        return Err(fault);
    }
    let second = second_of(value, &blocks, measures.second)?;
    let banks = shared.ok_or(broken(29))?;
    Ok(Config::make(head, banks, second, blocks))
}

/// Whether there are at most 4,096 instances, and banks, where their number is known, have room for them.
fn sized(geometry: Geometry, shared: Option<u32>, measures: Measures) -> Result<(), ConfigFault>
    requires legal { IsLegal geometry }
    requires shared { IfSome shared (HasBanks geometry) }
    ensures value { result ≡ sized geometry shared measures }
    ensures few { OnOk result (measures.instances ≤ 4096) }
    ensures room { OnOk result (IfSome shared (λ banks. need_of measures ≤ pages_of_bank geometry banks)) }
{
    if measures.instances > 4096 {
        return Err(broken(23));
    }
    match shared {
        Some(banks) if measures.need() > u64::from(geometry.bank_pages(banks)) => Err(broken(24)),
        _ => Ok(()),
    }
}
