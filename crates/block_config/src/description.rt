// The block that an item describes.
ghost use Rattle.std.specs.Prelude.{◌≡◌, ◌≤◌, map, length, true, IfOk, unwrap_or, option_and_then, codes, [], Some};
ghost use Rattle.serde_json.specs.View.{view};
ghost use Rattle.serde_json.specs.Find.{get};
ghost use Rattle.block_config.specs.Item.{keeps, block_of, content_in, items_in, contents_of};

use crate::content::read_content;
use crate::field::number_or;
use crate::item::{Item, count_at, device_at, is_true, items_in, kind_of, length_of, ram_of};
use crate::{BlockDesc, RomList};
use nv_base::{Bytes, bytes_of};
use serde_json::Value;
use std::alloc::{AllocError, Global};

/// The block that an item describes.
pub fn block_of(alloc: Global, item: &Item) -> Result<BlockDesc, AllocError>
    requires { keeps 18 (view item.now) ≡ true }
    ensures { IfOk result (λ b. b ≡ block_of (view item.now)) }
{
    Ok(BlockDesc {
        kind: kind_of(item),
        length: length_of(item),
        priority: number_or(item.values.priority, 100, 255).unwrap_or(0),
        ram: ram_of(item),
        defaults: defaults_of(alloc, item)?,
        nv: count_at(item).unwrap_or(0),
        rom: rom_of(alloc, item)?,
        readall: is_true(item.values.readall),
        writeall: is_true(item.values.writeall),
        once: is_true(item.values.once),
        protected: is_true(item.values.protected),
        resistant: is_true(item.values.resistant),
        reads: number_or(item.values.reads, 0, 7).unwrap_or(0),
        writes: number_or(item.values.writes, 0, 7).unwrap_or(0),
        repeats: number_or(item.values.repeats, 0, 7).unwrap_or(0),
        device: device_at(item).unwrap_or(1),
    })
}

fn defaults_of(alloc: Global, item: &Item) -> Result<Option<Bytes>, AllocError>
    ensures { IfOk result (λ r. r ≡ option_and_then content_in (get (codes "defaults") (view item.now))) }
{
    match item.values.defaults {
        Some(value) => content_in(alloc, value),
        None => Ok(None),
    }
}

/// The content that a string is.
fn content_in(alloc: Global, value: &Value) -> Result<Option<Bytes>, AllocError>
    ensures { IfOk result (λ r. r ≡ content_in (view value.now)) }
{
    match value.as_str() {
        Some(text) => read_content(alloc, text.as_bytes()),
        None => Ok(None),
    }
}

fn rom_of(alloc: Global, item: &Item) -> Result<RomList, AllocError>
    requires { keeps 18 (view item.now) ≡ true }
    ensures { IfOk result (λ r. r ≡ contents_of (option_and_then items_in (get (codes "rom") (view item.now)))) }
{
    match item.values.rom.and_then(items_in) {
        Some(items) => contents_of(alloc, items),
        None => Ok(RomList::new(alloc)),
    }
}

/// The contents that these strings are, at most 16.
fn contents_of(alloc: Global, items: &[Value]) -> Result<RomList, AllocError>
    requires { length items.now ≤ 16 }
    ensures { IfOk result (λ r. r ≡ contents_of (Some (map view items.now))) }
{
    let mut contents = RomList::new(alloc);
    for item in items {
        contents.add(content_or_none(alloc, item)?)?;
    }
    Ok(contents)
}

/// The content that a string is, or no bytes.
fn content_or_none(alloc: Global, value: &Value) -> Result<Bytes, AllocError>
    ensures { IfOk result (λ b. b ≡ unwrap_or (content_in (view value.now)) []) }
{
    match content_in(alloc, value)? {
        Some(content) => Ok(content),
        None => bytes_of(alloc, &[]),
    }
}
