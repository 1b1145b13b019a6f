// The places and flags by number.
ghost use Rattle.std.specs.Prelude.{◌≡◌, false, length, IfOk};
ghost use Rattle.fee_image.specs.Found.{fits, matches_length};
ghost use Rattle.fee_image.specs.Places.{place_of_kind, count_at, noted, erased_places};
ghost use Rattle.fee_log.specs.Index.{place_in, flag_in, with_flag, clear_flags};

use fee_format::RecordKind;
use fee_image::Place;
use nv_base::{DeviceNumber, Lengths};
use std::alloc::{AllocError, Global};

/// Places for all numbers, of which nothing is found.
#[tactic(auto, using(crate::proofs::Changes::erased))]
pub(crate) fn erased_places(alloc: Global, numbers: &Lengths) -> Result<Vec<Place>, AllocError>
    ensures { IfOk result (λ v. v.items ≡ erased_places numbers.now) }
{
    vec![in alloc; Place::Unwritten; numbers.as_slice().len()]
}

/// Clear flags for all numbers.
#[tactic(auto, using(crate::proofs::Changes::clear))]
pub(crate) fn clear_flags(alloc: Global, numbers: &Lengths) -> Result<Vec<bool>, AllocError>
    ensures { IfOk result (λ v. v.items ≡ clear_flags numbers.now) }
{
    vec![in alloc; false; numbers.as_slice().len()]
}

/// Nothing is found of any number from now on.
pub(crate) fn forget(numbers: &Lengths, places: &mut [Place])
    requires { length places.old ≡ length numbers.now }
    ensures { places.new ≡ erased_places numbers.now }
{
    places.fill(Place::Unwritten);
}

/// No flag is set from now on.
pub(crate) fn clear_all(numbers: &Lengths, flags: &mut [bool])
    requires { length flags.old ≡ length numbers.now }
    ensures { flags.new ≡ clear_flags numbers.now }
{
    flags.fill(false);
}

/// The place of a number, of the places in the order of the numbers. Unwritten where it isn't configured.
pub(crate) fn place_of(numbers: &Lengths, places: &[Place], number: DeviceNumber) -> Place
    requires { length places.now ≡ length numbers.now }
    ensures { result ≡ place_in numbers.now places.now number.0 }
{
    match numbers.place_of(number) {
        Some(i) => places[i],
        None => Place::Unwritten,
    }
}

/// The flag of a number, of the flags in the order of the numbers. Clear where it isn't configured.
pub(crate) fn flag_of(numbers: &Lengths, flags: &[bool], number: DeviceNumber) -> bool
    requires { length flags.now ≡ length numbers.now }
    ensures { result ≡ flag_in numbers.now flags.now number.0 }
{
    match numbers.place_of(number) {
        Some(i) => flags[i],
        None => false,
    }
}

/// Sets or clears the flag of a number, where it is configured.
pub(crate) fn put_flag(numbers: &Lengths, flags: &mut [bool], number: DeviceNumber, on: bool)
    requires { length flags.old ≡ length numbers.now }
    ensures { flags.new ≡ with_flag numbers.now flags.old number.0 on }
{
    let _ = numbers.len();
    let Some(i) = numbers.place_of(number) else {
        return;
    };
    flags[i] = on;
}

fn place_of_kind(kind: RecordKind, at: u32, count: u32) -> Place
    ensures { result ≡ place_of_kind kind at count }
{
    match kind {
        RecordKind::Content => Place::Content { at, count },
        RecordKind::Invalid => Place::Invalid { count },
        RecordKind::Erased => Place::Erased { count },
    }
}

/// How often a number was written, by its place.
pub(crate) fn count_at(place: Place) -> u32
    ensures { result ≡ count_at place }
{
    match place {
        Place::Content { count, .. } | Place::Invalid { count } | Place::Erased { count } => count,
        Place::Unwritten => 0,
    }
}

fn matches_length(kind: RecordKind, size: usize, length: u16) -> bool
    ensures { result ≡ matches_length kind size length }
{
    match kind {
        RecordKind::Content => size == usize::from(length),
        RecordKind::Invalid | RecordKind::Erased => true,
    }
}

// Whether a record of this number is one of its length, for a content.
fn fits(wanted: (DeviceNumber, u16), number: DeviceNumber, kind: RecordKind, size: usize) -> bool
    ensures { (count : _) → result ≡ fits wanted.0.0 wanted.1 (record { number = number; kind = kind; length = size; count = count }) }
{
    number == wanted.0 && matches_length(kind, size, wanted.1)
}

/// Takes a committed record into the places, where it fits a number.
#[inline(always)]
pub(crate) fn note(
    numbers: &Lengths,
    places: &mut [Place],
    at: u32,
    number: DeviceNumber,
    kind: RecordKind,
    size: usize,
    count: u32,
)
    requires { length places.old ≡ length numbers.now }
    ensures { places.new ≡ noted numbers.now places.old at (record { number = number; kind = kind; length = size; count = count }) }
{
    let Some(i) = numbers.place_of(number) else {
        return;
    };
    let list = numbers.as_slice();
    if !fits(list[i], number, kind, size) {
        return;
    }
    places[i] = place_of_kind(kind, at, count);
}
