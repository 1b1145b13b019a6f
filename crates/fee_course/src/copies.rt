// The copies that a switch has to make.
ghost use Rattle.std.specs.Prelude.{◌≡◌, ◌<◌, ◌≤◌, ◌*◌, ◌^◌, length, get_or, IfSome};
ghost use Rattle.fee_course.specs.Copies.{turns_of, is_left, next_copy, NoneLeft, copies_left, as_copied, as_cleared, as_appended, copies_most, greatest};

use fee_image::Place;
use nv_base::{Lengths, record_pages};

/// A number by its place in the list of all, from 0, with the length of its contents and where its record stands.
#[derive(Clone, Copy)]
pub struct Source {
    pub index: usize,
    pub length: u16,
    pub place: Place,
}

// Whether a copy is to be made: there is a record, and it has no copy.
fn is_left(place: Place, copied: bool) -> bool
    ensures { result ≡ is_left place copied }
{
    !copied && place != Place::Unwritten
}

/// The first number that has a record and no copy, which none of the first ones, so many, is. It looks at each of the others once
/// at most.
pub fn next_copy(
    numbers: &Lengths,
    places: &[Place],
    copied: &[bool],
    first: usize,
) -> Option<Source>
    requires places { length places.now ≡ length numbers.now }
    requires copied { length copied.now ≡ length numbers.now }
    requires none { NoneLeft first places.now copied.now }
    ensures next { result ≡ next_copy numbers.now places.now copied.now }
    ensures before { IfSome result (λ s. NoneLeft s.index places.now copied.now) }
{
    let numbers = numbers.as_slice();
    for i in first..numbers.len() {
        if is_left(places[i], copied[i]) {
            return Some(Source {
                index: i,
                length: numbers[i].1,
                place: places[i],
            });
        }
    }
    None
}

// The turns of one number's copy.
fn turns_of(page: u32, length: u16, place: Place, copied: bool) -> u64
    requires low { 16 ≤ page }
    requires high { page ≤ 256 }
    requires length { length ≤ 4096 }
    ensures value { result ≡ turns_of page length place copied }
    ensures most { result ≤ 260 }
{
    if copied {
        return 0;
    }
    let pages = u64::from(record_pages(length, page));
    match place {
        Place::Content { .. } => pages + 1,
        Place::Invalid { .. } | Place::Erased { .. } => 3,
        Place::Unwritten => 0,
    }
}

// Where the record of a number stands, as if the one at one place of the list had a content.
fn place_as(places: &[Place], appended: Option<usize>, i: usize) -> Place
    requires { i < length places.now }
    ensures { (d : _) → result ≡ get_or (as_appended appended places.now) i d }
{
    if appended == Some(i) {
        Place::Content { at: 0, count: 0 }
    } else {
        places[i]
    }
}

// Whether a number is copied, as if the one at one place of the list were, and the one at another weren't.
fn copied_as(copied: &[bool], in_work: Option<usize>, appended: Option<usize>, i: usize) -> bool
    requires { i < length copied.now }
    ensures { (d : _) → result ≡ get_or (as_cleared appended (as_copied in_work copied.now)) i d }
{
    appended != Some(i) && (in_work == Some(i) || copied[i])
}

/// The turns of all copies that are to be made, as if the number at one place of the list, if any, were copied, and the one
/// at another had a content without a copy.
pub fn copies_left(
    page: u32,
    numbers: &Lengths,
    places: &[Place],
    copied: &[bool],
    in_work: Option<usize>,
    appended: Option<usize>,
) -> u64
    requires low { 16 ≤ page }
    requires high { page ≤ 256 }
    requires places { length places.now ≡ length numbers.now }
    requires copied { length copied.now ≡ length numbers.now }
    ensures value { result ≡ copies_left page numbers.now (as_appended appended places.now) (as_cleared appended (as_copied in_work copied.now)) }
    ensures most { result ≤ 260 * length numbers.now }
    ensures few { length numbers.now < 2 ^ 32 }
{
    let count = numbers.len();
    let list = numbers.as_slice();
    let mut turns = 0;
    for i in 0..list.len() {
        let place = place_as(places, appended, i);
        let done = copied_as(copied, in_work, appended, i);
        turns += turns_of(page, list[i].1, place, done);
    }
    turns
}

/// The turns of a copy of each number, contents all, and the pages of the greatest record.
pub fn copies_most(page: u32, numbers: &Lengths) -> (u64, u32)
    requires low { 16 ≤ page }
    requires high { page ≤ 256 }
    ensures all { result.0 ≡ copies_most page numbers.now }
    ensures greatest { result.1 ≡ greatest page numbers.now }
    ensures most { result.0 ≤ 260 * length numbers.now }
    ensures few { length numbers.now < 2 ^ 32 }
{
    let count = numbers.len();
    let list = numbers.as_slice();
    let mut turns = 0;
    let mut most = 0;
    for i in 0..list.len() {
        let pages = record_pages(list[i].1, page);
        turns += u64::from(pages) + 1;
        if most < pages {
            most = pages;
        }
    }
    (turns, most)
}
