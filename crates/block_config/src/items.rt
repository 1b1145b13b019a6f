// The items of a configuration's blocks.
ghost use Rattle.std.specs.Prelude.{◌≡◌, ◌≤◌, ◌∷◌, [], map, length, true, All, IfOk};
ghost use Rattle.serde_json.specs.View.{view};
ghost use Rattle.block_config.specs.Block.{manager_block};
ghost use Rattle.block_config.specs.Item.{keeps, block_of};
ghost use Rattle.block_config.specs.Reading.{breaker, first_fault, item_rules};

use crate::block::manager_block;
use crate::description::block_of;
use crate::item::{Item, item_of, keeps};
use crate::{BlockDesc, ConfigFault};
use serde_json::Value;
use std::alloc::{AllocError, Global};

/// The items that these values are.
pub fn items_of(alloc: Global, values: &[Value]) -> Result<Vec<Item>, AllocError>
    ensures { IfOk result (λ items. items.items ≡ values.now) }
{
    let mut items = Vec::with_capacity(alloc, values.len())?;
    for value in values {
        items.push(item_of(value))?;
    }
    Ok(items)
}

/// The first rule that an item breaks, with the first block that breaks it.
pub fn first_fault(items: &[Item]) -> Option<ConfigFault>
    requires { length items.now ≤ 511 }
    ensures { result ≡ first_fault item_rules (map view items.now) }
{
    for rule in 11..23 {
        if let Some(block) = breaker(rule, items) {
            return Some(ConfigFault::Broken { rule, block });
        }
    }
    None
}

/// The fault of the first item that names no device.
pub fn device_fault(items: &[Item]) -> Option<ConfigFault>
    requires { length items.now ≤ 511 }
    ensures { result ≡ first_fault (25 ∷ []) (map view items.now) }
{
    match breaker(25, items) {
        Some(block) => Some(ConfigFault::Broken { rule: 25, block }),
        None => None,
    }
}

/// The first block that breaks a rule; the items begin at block 2.
fn breaker(rule: u8, items: &[Item]) -> Option<u16>
    requires { length items.now ≤ 511 }
    ensures { result ≡ breaker rule 2 (map view items.now) }
{
    let mut block = 2;
    for item in items {
        if !keeps(rule, item) {
            return Some(block);
        }
        block += 1;
    }
    None
}

/// Block 1, and the blocks that these items describe.
pub fn blocks_of(alloc: Global, id: u16, items: &[Item]) -> Result<Vec<BlockDesc>, AllocError>
    requires { All (λ item. keeps 18 (view item) ≡ true) items.now }
    ensures { IfOk result (λ blocks. blocks.items ≡ manager_block id ∷ map block_of (map view items.now)) }
{
    let mut blocks = Vec::with_capacity(alloc, items.len() + 1)?;
    blocks.push(manager_block(alloc, id)?)?;
    for item in items {
        blocks.push(block_of(alloc, item)?)?;
    }
    Ok(blocks)
}
