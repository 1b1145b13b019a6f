// One item of a configuration's blocks.
ghost use Rattle.std.specs.Prelude.{◌≡◌, codes, option_map, map, Some, false, unwrap_or};
ghost use Rattle.std.specs.List.{list_all};
ghost use Rattle.serde_json.specs.View.{view};
ghost use Rattle.serde_json.specs.Find.{get, as_bool};
ghost use Rattle.block_config.specs.Field.{if_given, shown};
ghost use Rattle.block_config.specs.Item.{kind_named, kind_at, kind_of, is_dataset, length_at, length_of, ram_named, ram_at, ram_of, has_ram, content_in, has_length, are_defaults, count_at, are_contents, items_in, are_rom_datasets, are_truths, may_be_member, may_be_once, are_tries, device_at, keeps};

use crate::content::content_len;
use crate::field::{number_in, number_or, truth_or};
use crate::values::Values;
use crate::{BlockKind, RamKind};
use serde_json::Value;
use std::marker::Model;

/// An item with the values of its members, each looked up once. Contracts see the item.
#[derive(Drop)]
pub struct Item<'v> {
    value: &'v Value,
    pub values: Values<'v>,
}

impl<'v> Model for Item<'v> {
    ghost use Rattle.std.specs.Coded.{codes};
    ghost use Rattle.serde_json.specs.contracts.value.Value as json;
    ghost use Rattle.serde_json.specs.declared.value.Value.{Value as Json};
    ghost use Rattle.serde_json.specs.View.{view as data_of};
    ghost use Rattle.block_config.specs.Values.{AreValues};

    ghost Value = { Json };

    ghost coded = { Prim.hlevel (codes, json.the_row.coded) };

    ghost view = { λ i. i.value.now };

    ghost invariant = { λ i. AreValues i.values (data_of i.value.now) };
}

/// The item that a value is.
pub fn item_of(value: &Value) -> Item
    ensures { result ≡ value.now }
{
    Item {
        value,
        values: Values::of(value),
    }
}

/// Whether an item keeps the rule with this number, 11 to 22 or 25.
pub fn keeps(rule: u8, item: &Item) -> bool
    ensures { result ≡ keeps rule (view item.now) }
{
    match rule {
        11 => item.values.known,
        12 => kind_at(item).is_some(),
        13 => length_at(item).is_some(),
        14 => number_or(item.values.priority, 100, 255).is_some(),
        15 => ram_at(item).is_some(),
        16 => has_defaults(item),
        17 => count_at(item).is_some(),
        18 => has_rom_datasets(item),
        19 => has_truths(item),
        20 => may_be_member(item),
        21 => may_be_once(item),
        22 => has_tries(item),
        _ => device_at(item).is_some(),
    }
}

fn kind_at(item: &Item) -> Option<BlockKind>
    ensures { result ≡ kind_at (view item.now) }
{
    match item.values.kind {
        None => Some(BlockKind::Native),
        Some(value) => kind_named(value.as_str()?),
    }
}

fn kind_named(name: &str) -> Option<BlockKind>
    ensures { result ≡ kind_named name.now }
{
    match name {
        "native" => Some(BlockKind::Native),
        "redundant" => Some(BlockKind::Redundant),
        "dataset" => Some(BlockKind::Dataset),
        _ => None,
    }
}

/// The kind, or native where the item names none that is known.
pub fn kind_of(item: &Item) -> BlockKind
    ensures { result ≡ kind_of (view item.now) }
{
    kind_at(item).unwrap_or(BlockKind::Native)
}

fn length_at(item: &Item) -> Option<u16>
    ensures { result ≡ length_at (view item.now) }
{
    Some(number_in(item.values.length?, 1, 4096)? as u16)
}

/// The length, or 0 where the item names none that is allowed.
pub fn length_of(item: &Item) -> u16
    ensures { result ≡ length_of (view item.now) }
{
    length_at(item).unwrap_or(0)
}

fn ram_at(item: &Item) -> Option<RamKind>
    ensures { result ≡ ram_at (view item.now) }
{
    match item.values.ram {
        None => Some(RamKind::None),
        Some(value) => ram_named(value.as_str()?),
    }
}

fn ram_named(name: &str) -> Option<RamKind>
    ensures { result ≡ ram_named name.now }
{
    match name {
        "none" => Some(RamKind::None),
        "permanent" => Some(RamKind::Permanent),
        "sync" => Some(RamKind::Sync),
        _ => None,
    }
}

/// The RAM, or none where the item names none that is known.
pub fn ram_of(item: &Item) -> RamKind
    ensures { result ≡ ram_of (view item.now) }
{
    ram_at(item).unwrap_or(RamKind::None)
}

fn has_length(value: &Value, length: u16) -> bool
    ensures { result ≡ has_length length (content_in (view value.now)) }
{
    match value.as_str() {
        Some(text) => content_len(text.as_bytes()) == Some(usize::from(length)),
        None => false,
    }
}

fn has_defaults(item: &Item) -> bool
    ensures { result ≡ are_defaults (kind_of (view item.now)) (length_of (view item.now)) (get (codes "defaults") (view item.now)) }
{
    match item.values.defaults {
        Some(value) => kind_of(item) != BlockKind::Dataset && has_length(value, length_of(item)),
        None => true,
    }
}

/// The stored datasets of a dataset, 0 for another block, or None where the item breaks the rule.
pub fn count_at(item: &Item) -> Option<u8>
    ensures { result ≡ count_at (view item.now) }
{
    match kind_of(item) {
        BlockKind::Dataset => Some(number_in(item.values.nv?, 1, 64)? as u8),
        BlockKind::Native | BlockKind::Redundant => if item.values.nv.is_some() {
            None
        } else {
            Some(0)
        },
    }
}

/// The items of an array.
pub fn items_in(value: &Value) -> Option<&[Value]>
    ensures { option_map (λ items. map view items.now) result ≡ items_in (view value.now) }
{
    Some(value.as_array()?)
}

fn are_contents(items: &[Value], length: u16) -> bool
    ensures { result ≡ are_contents length (Some (map view items.now)) }
{
    items.len() <= 16 && have_length(items, length)
}

fn have_length(items: &[Value], length: u16) -> bool
    ensures { result ≡ list_all (λ v. has_length length (content_in (view v))) items.now }
{
    items.iter().all(|item| has_length(item, length))
}

fn has_rom_datasets(item: &Item) -> bool
    ensures { result ≡ are_rom_datasets (kind_of (view item.now)) (length_of (view item.now)) (get (codes "rom") (view item.now)) }
{
    match item.values.rom {
        Some(value) => kind_of(item) == BlockKind::Dataset && is_rom(value, length_of(item)),
        None => true,
    }
}

fn is_rom(value: &Value, length: u16) -> bool
    ensures { result ≡ are_contents length (items_in (view value.now)) }
{
    match items_in(value) {
        Some(items) => are_contents(items, length),
        None => false,
    }
}

fn has_truths(item: &Item) -> bool
    ensures { result ≡ are_truths (view item.now) }
{
    truth_or(item.values.readall).is_some()
        && truth_or(item.values.writeall).is_some()
        && truth_or(item.values.once).is_some()
        && truth_or(item.values.protected).is_some()
        && truth_or(item.values.resistant).is_some()
}

/// Whether a value is true.
pub fn is_true(value: Option<&Value>) -> bool
    ensures { result ≡ unwrap_or (if_given false as_bool (shown value.entry)) false }
{
    truth_or(value).unwrap_or(false)
}

fn may_be_member(item: &Item) -> bool
    ensures { result ≡ may_be_member (view item.now) }
{
    ram_of(item) != RamKind::None
        || !(is_true(item.values.readall) || is_true(item.values.writeall))
}

fn may_be_once(item: &Item) -> bool
    ensures { result ≡ may_be_once (view item.now) }
{
    !(is_true(item.values.once) && kind_of(item) == BlockKind::Dataset)
}

fn has_tries(item: &Item) -> bool
    ensures { result ≡ are_tries (view item.now) }
{
    number_or(item.values.reads, 0, 7).is_some()
        && number_or(item.values.writes, 0, 7).is_some()
        && number_or(item.values.repeats, 0, 7).is_some()
}

/// The device that stores the block, the first where the item names none, or None where it names no device.
pub fn device_at(item: &Item) -> Option<u8>
    ensures value { result ≡ device_at (view item.now) }
{
    number_or(item.values.device, 0, 1)
}
