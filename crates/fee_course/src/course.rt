// How far a switch has come.
ghost use Rattle.std.specs.Prelude.{◌≡◌, ◌≤◌, ◌+◌, ◌*◌, ◌^◌, ℕ, Bool, List, length};
ghost use Rattle.nv_base.specs.declared.instance.DeviceNumber.{DeviceNumber};
ghost use Rattle.fee_course.specs.Copies.{next_copy, as_copied, as_cleared, as_appended, copies_left};
ghost use Rattle.fee_course.specs.Course.{begun, settled, after_done, flag_due, appended_to, after_failed, turns_left, most_turns, IsShort};

use crate::{Source, copies_left, copies_most};
use fee_image::Place;
use nv_base::{Lengths, record_pages};

/// A copy in work: the place of its number in the list of all, from 0, how many pages of its record are to be programmed, and
/// whether the last one sets the number's flag.
#[derive(Clone, Copy)]
pub struct Copying {
    pub index: usize,
    pub pages: u32,
    pub sets: bool,
}

/// What comes next: the erase of the target's sector when so many are done; a page of the copy in work, or the first
/// operation of the next one; the bank head; or the bank gate, which may have failed.
#[derive(Clone, Copy)]
pub enum Course {
    Erase { done: u32 },
    Copy { work: Option<Copying> },
    Head,
    Gate { failed: bool },
}

// A copy begins: a content was read, of a mark the first page was programmed.
fn begun(page: u32, source: Option<Source>) -> Course
    requires low { 16 ≤ page }
    requires high { page ≤ 256 }
    ensures { result ≡ begun page source }
{
    let Some(source) = source else {
        return Course::Head;
    };
    let pages = match source.place {
        Place::Content { .. } => record_pages(source.length, page),
        _ => record_pages(0, page) - 1,
    };
    Course::Copy {
        work: Some(Copying {
            index: source.index,
            pages,
            sets: true,
        }),
    }
}

// No copy is in work: the next one comes, or the head where none is left.
fn settled(next: Option<Source>) -> Course
    ensures { (numbers : List (DeviceNumber × ℕ)) (places : List Place) (copied : List Bool) → next ≡ next_copy numbers places copied → result ≡ settled numbers places copied }
{
    if next.is_some() {
        Course::Copy { work: None }
    } else {
        Course::Head
    }
}

impl Course {
    /// The number whose flag the next operation sets where it is done, by its place in the list of all.
    pub fn flag_due(self) -> Option<usize>
        ensures { result ≡ flag_due self }
    {
        match self {
            Course::Copy { work: Some(work) } if work.sets && work.pages == 1 => Some(work.index),
            _ => None,
        }
    }

    /// What comes behind the next operation where it was done, and this flag is set. `next` is the number that is copied next
    /// then.
    pub fn done(self, page: u32, sectors: u32, next: Option<Source>) -> Course
        requires low { 16 ≤ page }
        requires high { page ≤ 256 }
        requires short { IsShort sectors self }
        ensures { (numbers : List (DeviceNumber × ℕ)) (places : List Place) (copied : List Bool) → next ≡ next_copy numbers places copied → result ≡ after_done page sectors numbers places copied self }
    {
        match self {
            Course::Erase { done } if done + 1 != sectors => Course::Erase { done: done + 1 },
            Course::Erase { .. } => settled(next),
            Course::Copy { work: None } => begun(page, next),
            Course::Copy { work: Some(work) } if work.pages != 1 => Course::Copy {
                work: Some(Copying {
                    pages: work.pages - 1,
                    ..work
                }),
            },
            Course::Copy { .. } => settled(next),
            Course::Head => Course::Gate { failed: false },
            gate => gate,
        }
    }

    /// What comes behind the next operation where it failed: an erase or the gate again, and behind any other the first erase.
    pub fn failed(self) -> Course
        ensures { result ≡ after_failed self }
    {
        match self {
            Course::Gate { .. } => Course::Gate { failed: true },
            Course::Erase { done } => Course::Erase { done },
            _ => Course::Erase { done: 0 },
        }
    }

    /// The same once an append to the number at this place of the list has begun: a copy of it in work sets no flag.
    pub fn appended_to(self, index: usize) -> Course
        ensures { result ≡ appended_to index self }
    {
        match self {
            Course::Copy { work: Some(work) } if work.index == index => Course::Copy {
                work: Some(Copying {
                    sets: false,
                    ..work
                }),
            },
            course => course,
        }
    }

    /// The turns that are left, while a record is appended to the number at one place of the list, if any: those of each
    /// sector to erase, of each copy that is to be made or in work, of the head and of the gate.
    pub fn left(
        self,
        page: u32,
        sectors: u32,
        numbers: &Lengths,
        places: &[Place],
        copied: &[bool],
        appended: Option<usize>,
    ) -> u64
        requires low { 16 ≤ page }
        requires high { page ≤ 256 }
        requires short { IsShort sectors self }
        requires places { length places.now ≡ length numbers.now }
        requires copied { length copied.now ≡ length numbers.now }
        ensures { result ≡ turns_left page sectors numbers.now places.now copied.now appended self }
    {
        match self {
            Course::Erase { done } => {
                let copies = copies_left(page, numbers, places, copied, None, appended);
                u64::from(sectors - done) + copies + 2
            }
            Course::Copy { work: None } => {
                copies_left(page, numbers, places, copied, None, appended) + 2
            }
            Course::Copy { work: Some(work) } => {
                let set = if work.sets { Some(work.index) } else { None };
                let copies = copies_left(page, numbers, places, copied, set, appended);
                copies + u64::from(work.pages) + 2
            }
            Course::Head => 2,
            Course::Gate { .. } => 1,
        }
    }
}

/// The greatest figure of a switch: each sector of a bank, a copy of each number, the pages of the greatest record, the head
/// and the gate.
pub fn most_turns(page: u32, sectors: u32, numbers: &Lengths) -> u64
    requires low { 16 ≤ page }
    requires high { page ≤ 256 }
    ensures { result ≡ most_turns page sectors numbers.now }
{
    let (copies, greatest) = copies_most(page, numbers);
    u64::from(sectors) + copies + u64::from(greatest) + 2
}
