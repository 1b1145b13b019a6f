// The second device: its shape, and what its blocks ask of it.
ghost use Rattle.std.specs.Prelude.{◌≡◌, ◌≤◌, IfOk, OnOk, IfSome, is_none, string_bytes, codes, length};
ghost use Rattle.std.specs.List.{list_all};
ghost use Rattle.std.specs.BTreeMap.{keys};
ghost use Rattle.serde_json.specs.View.{view};
ghost use Rattle.serde_json.specs.Find.{get, as_object};
ghost use Rattle.nv_base.specs.Geometry.{IsLegal};
ghost use Rattle.block_config.specs.Field.{has_keys};
ghost use Rattle.block_config.specs.Head.{rule};
ghost use Rattle.block_config.specs.Reading.{second_of, second_fits};
ghost use Rattle.block_config.specs.Second.{are_first, is_shape_key, shape_in, eeprom_for, fits_in, too_long, IsSecond};
ghost use Rattle.block_config.specs.Sizes.{second_instances};

use crate::head::{broken, geometry_of};
use crate::{BlockDesc, ConfigFault};
use nv_base::Geometry;
use serde_json::{Map, Value};

/// The shape of the second device of these blocks, with so many instances in it, or the first rule that is broken.
pub fn second_of(
    value: &Value,
    blocks: &[BlockDesc],
    instances: u16,
) -> Result<Option<Geometry>, ConfigFault>
    requires few { length blocks.now ≤ 512 }
    requires instances { instances ≡ second_instances blocks.now }
    ensures value { result ≡ second_of (get (codes "eeprom") (view value.now)) blocks.now }
    ensures named { IfOk result (λ second. are_first blocks.now ≡ is_none second) }
    ensures kept { IfOk result (λ second. IfSome second (IsSecond blocks.now)) }
{
    let second = eeprom_at(value, are_first(blocks))?;
    second_fits(blocks, second, instances)?;
    Ok(second)
}

/// Whether all blocks are the first device's.
fn are_first(blocks: &[BlockDesc]) -> bool
    ensures { result ≡ are_first blocks.now }
{
    blocks.iter().all(|block| block.device == 0)
}

/// The shape of the second device's flash, which is named exactly where a block isn't the first device's; or the fault of
/// that rule.
fn eeprom_at(value: &Value, one: bool) -> Result<Option<Geometry>, ConfigFault>
    ensures value { result ≡ rule 26 (eeprom_for one (get (codes "eeprom") (view value.now))) }
    ensures named { IfOk result (λ second. one ≡ is_none second) }
    ensures legal { IfOk result (λ second. IfSome second IsLegal) }
{
    match value.get("eeprom") {
        None => if one { Ok(None) } else { Err(broken(26)) },
        Some(_) if one => Err(broken(26)),
        Some(member) => Ok(Some(shape_in(member).ok_or(broken(26))?)),
    }
}

fn shape_in(value: &Value) -> Option<Geometry>
    ensures value { result ≡ shape_in (view value.now) }
    ensures legal { IfSome result IsLegal }
{
    if has_shape_keys(value) {
        geometry_of(value).ok()
    } else {
        None
    }
}

fn has_shape_keys(value: &Value) -> bool
    ensures { result ≡ has_keys is_shape_key (as_object (view value.now)) }
{
    match value.as_object() {
        Some(members) => are_shape_keys(members),
        None => false,
    }
}

fn are_shape_keys(members: &Map<String, Value>) -> bool
    ensures { result ≡ list_all (λ k. is_shape_key (string_bytes k)) (keys members.now) }
{
    members.keys().all(|key| is_shape_key(key))
}

fn is_shape_key(key: &str) -> bool
    ensures { result ≡ is_shape_key key.now }
{
    key == "page" || key == "sector" || key == "sectors"
}

/// Whether these blocks, with so many instances of the second device, have room in it.
fn second_fits(
    blocks: &[BlockDesc],
    second: Option<Geometry>,
    instances: u16,
) -> Result<(), ConfigFault>
    requires few { length blocks.now ≤ 512 }
    requires legal { IfSome second IsLegal }
    requires instances { instances ≡ second_instances blocks.now }
    ensures value { result ≡ second_fits blocks.now second }
    ensures kept { OnOk result (IfSome second (IsSecond blocks.now)) }
{
    let Some(shape) = second else {
        return Ok(());
    };
    if let Some(block) = too_long(blocks, shape.sector) {
        return Err(ConfigFault::Broken { rule: 27, block });
    }
    if 4 * u32::from(instances) > shape.sectors {
        return Err(broken(28));
    }
    Ok(())
}

/// The first block of the second device that is longer than a sector.
fn too_long(blocks: &[BlockDesc], sector: u32) -> Option<u16>
    requires few { length blocks.now ≤ 512 }
    ensures { result ≡ too_long sector 1 blocks.now }
{
    let mut id = 1;
    for block in blocks {
        if !fits_in(block, sector) {
            return Some(id);
        }
        id += 1;
    }
    None
}

fn fits_in(block: &BlockDesc, sector: u32) -> bool
    ensures { result ≡ fits_in sector block.now }
{
    block.device == 0 || u32::from(block.length) <= sector
}
