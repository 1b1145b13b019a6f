// What a configuration says besides its blocks.
ghost use Rattle.std.specs.Prelude.{◌≡◌, ◌≤◌, ◌%◌, ◌*◌, [], ◌∷◌, Contains, IfOk, IfSome, option_map, map, string_bytes};
ghost use Rattle.std.specs.List.{list_all};
ghost use Rattle.std.specs.BTreeMap.{keys};
ghost use Rattle.serde_json.specs.View.{view};
ghost use Rattle.serde_json.specs.Find.{as_object};
ghost use Rattle.nv_base.specs.Geometry.{IsLegal, HasBanks};
ghost use Rattle.block_config.specs.Rules.{IsQueueSize};
ghost use Rattle.block_config.specs.Field.{has_keys};
ghost use Rattle.block_config.specs.Head.{is_head_key, page_at, sector_at, sectors_at, geometry_of, head_of, blocks_at, banks_at};

use crate::ConfigFault;
use crate::field::{number_at, number_in};
use nv_base::Geometry;
use serde_json::{Map, Value};

/// The configuration id, the shape of the flash, and the sizes of the standard and the immediate queue.
#[derive(Clone, Copy)]
pub struct Head {
    pub id: u16,
    pub geometry: Geometry,
    pub standard: u16,
    pub immediate: u16,
}

/// The head, or the first broken rule.
pub fn head_of(value: &Value) -> Result<Head, ConfigFault>
    ensures value { result ≡ head_of (view value.now) }
    ensures geometry { IfOk result (λ h. IsLegal h.geometry) }
    ensures standard { IfOk result (λ h. IsQueueSize h.standard) }
    ensures immediate { IfOk result (λ h. IsQueueSize h.immediate) }
{
    if !has_head_keys(value) {
        return Err(broken(2));
    }
    let id = number_at(value, "id", 0, 65535).ok_or(broken(3))?;
    let geometry = geometry_of(value)?;
    let standard = number_at(value, "standard", 1, 256).ok_or(broken(8))?;
    let immediate = number_at(value, "immediate", 1, 256).ok_or(broken(9))?;
    Ok(Head {
        id: id as u16,
        geometry,
        standard: standard as u16,
        immediate: immediate as u16,
    })
}

/// The descriptions of the blocks from block 2 on, where there are 1 to 511.
pub fn blocks_at(value: &Value) -> Option<&[Value]>
    ensures { option_map (λ items. map view items.now) result ≡ blocks_at (view value.now) }
{
    let items = value.get("blocks")?.as_array()?;
    if 1 <= items.len() && items.len() <= 511 {
        Some(items)
    } else {
        None
    }
}

/// How many banks share the sectors: 2 to 8 that divide them, and two where the value names no number.
pub fn banks_at(value: &Value, geometry: Geometry) -> Option<u32>
    ensures value { result ≡ banks_at geometry (view value.now) }
    ensures shared { IfSome result (HasBanks geometry) }
{
    let banks = match value.get("banks") {
        None => 2,
        Some(member) => number_in(member, 2, 8)?,
    };
    if geometry.sectors % banks == 0 {
        Some(banks)
    } else {
        None
    }
}

/// The fault of a rule that isn't about one block.
pub fn broken(rule: u8) -> ConfigFault
    ensures { result ≡ ConfigFault.Broken rule 0 }
{
    ConfigFault::Broken { rule, block: 0 }
}

/// The shape of a flash, or the first broken rule.
pub fn geometry_of(value: &Value) -> Result<Geometry, ConfigFault>
    ensures value { result ≡ geometry_of (view value.now) }
    ensures legal { IfOk result IsLegal }
{
    let page = page_at(value).ok_or(broken(4))?;
    let sector = sector_at(value, page).ok_or(broken(5))?;
    let sectors = sectors_at(value).ok_or(broken(6))?;
    if sector * sectors > 4_194_304 {
        return Err(broken(7));
    }
    Ok(Geometry {
        page,
        sector,
        sectors,
    })
}

fn page_at(value: &Value) -> Option<u32>
    ensures value { result ≡ page_at (view value.now) }
    ensures size { IfSome result (Contains (16 ∷ 32 ∷ 64 ∷ 128 ∷ 256 ∷ [])) }
    ensures bounds { IfSome result (λ n. (16 ≤ n) × (n ≤ 256)) }
{
    match number_at(value, "page", 16, 256)? {
        16 => Some(16),
        32 => Some(32),
        64 => Some(64),
        128 => Some(128),
        256 => Some(256),
        _ => None,
    }
}

fn sector_at(value: &Value, page: u32) -> Option<u32>
    requires low { 16 ≤ page }
    requires high { page ≤ 256 }
    ensures value { result ≡ sector_at page (view value.now) }
    ensures whole { IfSome result (λ n. (n % page ≡ 0) × (4 * page ≤ n)) }
    ensures most { IfSome result (λ n. n ≤ 65536) }
{
    let sector = number_at(value, "sector", 0, 65536)?;
    if sector % page == 0 && 4 * page <= sector {
        Some(sector)
    } else {
        None
    }
}

fn sectors_at(value: &Value) -> Option<u32>
    ensures value { result ≡ sectors_at (view value.now) }
    ensures even { IfSome result (λ n. n % 2 ≡ 0) }
    ensures bounds { IfSome result (λ n. (2 ≤ n) × (n ≤ 64)) }
{
    let sectors = number_at(value, "sectors", 2, 64)?;
    if sectors % 2 == 0 {
        Some(sectors)
    } else {
        None
    }
}

fn has_head_keys(value: &Value) -> bool
    ensures { result ≡ has_keys is_head_key (as_object (view value.now)) }
{
    match value.as_object() {
        Some(members) => are_head_keys(members),
        None => false,
    }
}

fn are_head_keys(members: &Map<String, Value>) -> bool
    ensures { result ≡ list_all (λ k. is_head_key (string_bytes k)) (keys members.now) }
{
    members.keys().all(|key| is_head_key(key))
}

fn is_head_key(key: &str) -> bool
    ensures { result ≡ is_head_key key.now }
{
    key == "id"
        || key == "page"
        || key == "sector"
        || key == "sectors"
        || key == "standard"
        || key == "immediate"
        || key == "blocks"
        || key == "eeprom"
        || key == "banks"
}
