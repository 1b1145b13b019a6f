// What a device in memory keeps for each number.
ghost use Rattle.std.specs.Prelude.{◌≡◌, ◌<◌, length, slice_set, slice_index_or, IfOk, map, false, true};
ghost use Rattle.memif.specs.Told.{no_slot};
ghost use Rattle.memif.specs.Kept.{staged, marked, settled, undoubted};
ghost use Rattle.memif.specs.PlainInside.{AreKept, slot_of};

use crate::PlainMark;
use nv_base::{Bytes, DeviceNumber};
use std::alloc::{AllocError, Global};

/// A mark, with room for the content of its number.
#[derive(Drop)]
pub(crate) struct Cell {
    pub kind: PlainMark,
    pub content: Bytes,
}

/// The settled mark with the count of writes, and the mark that a job took last, which is a doubt until it is settled.
#[derive(Drop)]
pub(crate) struct Kept {
    pub settled: Cell,
    pub count: u32,
    pub next: Cell,
    pub doubted: bool,
}

fn erased_cell(alloc: Global, count: u16) -> Result<Cell, AllocError>
    ensures { IfOk result (λ c. (c.kind ≡ PlainMark.Erased) × (length c.content ≡ count)) }
{
    Ok(Cell {
        kind: PlainMark::Erased,
        content: Bytes::zeros(alloc, usize::from(count))?,
    })
}

/// Room for these numbers, each erased.
pub(crate) fn room_for(
    alloc: Global,
    numbers: &[(DeviceNumber, u16)],
) -> Result<Vec<Kept>, AllocError>
    ensures room { IfOk result (λ v. AreKept numbers.now v.items) }
    ensures erased { IfOk result (λ v. map slot_of v.items ≡ map (λ n. no_slot) numbers.now) }
{
    let mut list = Vec::with_capacity(alloc, numbers.len())?;
    for number in numbers {
        list.push(Kept {
            settled: erased_cell(alloc, number.1)?,
            count: 0,
            next: erased_cell(alloc, number.1)?,
            doubted: false,
        })?;
    }
    Ok(list)
}

/// Takes a content for the number at a place.
pub(crate) fn stage(kept: &mut Vec<Kept>, place: usize, content: &[u8])
    requires place { place < length kept.old.items }
    requires room { (d : _) → length (slice_index_or kept.old.items place d).next.content ≡ length content.now }
    ensures { (d : _) → kept.new.items ≡ slice_set kept.old.items place (staged (slice_index_or kept.old.items place d) content.now) }
{
    let one = &mut kept[place];
    one.next.content.copy_from_slice(content);
    one.next.kind = PlainMark::Content;
    one.doubted = true;
}

/// Takes a mark without content for the number at a place.
pub(crate) fn mark(kept: &mut Vec<Kept>, place: usize, kind: PlainMark)
    requires { place < length kept.old.items }
    ensures { (d : _) → kept.new.items ≡ slice_set kept.old.items place (marked (slice_index_or kept.old.items place d) kind) }
{
    let one = &mut kept[place];
    one.next.kind = kind;
    one.doubted = true;
}

/// Settles the mark that was taken last for the number at a place.
pub(crate) fn settle(kept: &mut Vec<Kept>, place: usize)
    requires place { place < length kept.old.items }
    requires room { (d : _) → length (slice_index_or kept.old.items place d).next.content ≡ length (slice_index_or kept.old.items place d).settled.content }
    ensures { (d : _) → kept.new.items ≡ slice_set kept.old.items place (settled (slice_index_or kept.old.items place d)) }
{
    let one = &mut kept[place];
    one.settled.kind = one.next.kind;
    one.count = one.count.saturating_add(1);
    one.settled
        .content
        .copy_from_slice(one.next.content.as_slice());
    one.doubted = false;
}

/// Leaves no doubt of any number.
pub(crate) fn leave_no_doubt(kept: &mut Vec<Kept>)
    ensures { kept.new.items ≡ map undoubted kept.old.items }
{
    for one in kept.iter_mut() {
        one.doubted = false;
    }
}
