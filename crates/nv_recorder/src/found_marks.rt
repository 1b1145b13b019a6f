// The marks that a start-up finds.
ghost use Rattle.std.specs.Prelude.{◌≡◌, ◌≤◌, ◌<◌, ◌+◌, ◌++◌, ℕ, List, [], length, map, slice_get, get_or, slice_set, IfOk, MatchOption, Some};
ghost use Rattle.nv_base.specs.Lengths.{AreLengths};
ghost use Rattle.nv_base.specs.Marks.{next_or};
ghost use Rattle.nv_recorder.specs.FoundMarks.{number_at, content_at, IsWhole, AreWhole, CanList, zeros_for, place_for, listed_at, marks_at, with_mark, with_content, found_in, numbers_of};

use crate::MarkKind;
use crate::told_bytes::ToldBytes;
use nv_base::{Bytes, DeviceNumber, Lengths, Mark, Marks, MarksRoom, instance_of};
use std::alloc::{AllocError, Global};
use std::marker::Model;

/// A number with the length of its content, and what stands there. The content itself stands for proofs alone.
#[derive(Drop)]
pub struct FoundPlace {
    pub number: DeviceNumber,
    pub length: u16,
    pub kind: MarkKind,
    pub content: ToldBytes,
}

impl FoundPlace {
    // A place for a number with this length, which holds nothing.
    fn make(number: DeviceNumber, length: u16) -> FoundPlace
        ensures { result ≡ place_for (number, length) }
    {
        FoundPlace {
            number,
            length,
            kind: MarkKind::Erased,
            content: ToldBytes::zeros(usize::from(length)),
        }
    }

    // It holds this mark, with this content where it is one.
    fn hold(&mut self, kind: MarkKind, content: &[u8])
        ensures { self.new ≡ with_mark kind content.now self.old }
    {
        if matches!(kind, MarkKind::Content) {
            self.content = ToldBytes::of(content);
        }
        self.kind = kind;
    }
}

/// The marks of instances. A place has a number, a length and what stands there; its content has memory only where there is some for
/// a list of all marks, and else stands for proofs alone. Contracts see the places, by ascending number, and for how many marks memory
/// of a list stands beside them.
#[derive(Drop)]
pub struct FoundMarks {
    places: Vec<FoundPlace>,
    contents: Vec<Bytes>,
    list: MarksRoom,
    room: u32,
}

impl Model for FoundMarks {
    ghost use Rattle.nv_recorder.specs.FoundMarks.{FoundState, IsFound};

    ghost Value = { FoundState };

    ghost view = { λ f. record { places = f.places.items; room = f.room } };

    ghost invariant = { λ f. IsFound f.places.items f.contents.items f.list f.room };
}

impl FoundMarks {
    /// A place for each of these numbers, all erased, with memory for a list of so many of their marks, and for the contents where that
    /// is one of all.
    pub fn make(alloc: Global, lengths: &Lengths, room: u32) -> Result<FoundMarks, AllocError>
        ensures numbers { IfOk result (λ f. numbers_of f ≡ lengths.now) }
        ensures room { IfOk result (λ f. room ≤ f.room) }
    {
        let list = MarksRoom::make(alloc, room)?;
        let places = places_of(alloc, lengths.as_slice())?;
        let contents = contents_of(alloc, lengths.as_slice(), room)?;
        Ok(FoundMarks {
            places,
            contents,
            list,
            room,
        })
    }

    /// How many places there are.
    pub fn len(&self) -> usize
        ensures count { result ≡ length self.now.places }
        ensures numbers { AreLengths 0 (numbers_of self.now) }
        ensures whole { AreWhole self.now.places }
    {
        self.places.len()
    }

    /// The place at an index, from 0. None exactly where that isn't below `len`.
    pub fn place(&self, i: usize) -> Option<&FoundPlace>
        ensures { MatchOption result (length self.now.places ≤ i) (λ p. slice_get self.now.places i ≡ Some p.now) }
    {
        self.places.get(i)
    }

    /// The place at an index holds this mark, with this content where it is one. It takes no memory.
    pub fn hold(&mut self, i: usize, kind: MarkKind, content: &[u8])
        requires below { i < length self.old.places }
        requires fits { (d : FoundPlace) → kind ≡ MarkKind.Content → length content.now ≡ (get_or self.old.places i d).length }
        ensures { (d : FoundPlace) → self.new ≡ record self.old { places = slice_set self.old.places i (with_mark kind content.now (get_or self.old.places i d)) } }
    {
        keep(&mut self.contents, i, kind, content);
        self.places[i].hold(kind, content);
    }

    /// The marks as a list, in the memory that stands for it.
    pub fn into_marks(self) -> Marks
        requires { CanList self }
        ensures { result ≡ found_in self }
    {
        let FoundMarks {
            places,
            contents,
            list,
            ..
        } = self;
        listed(places, contents, list)
    }
}

// A place for each of these numbers.
fn places_of(alloc: Global, numbers: &[(DeviceNumber, u16)]) -> Result<Vec<FoundPlace>, AllocError>
    ensures { IfOk result (λ v. v.items ≡ map place_for numbers.now) }
{
    let mut places = Vec::with_capacity(alloc, numbers.len())?;
    for item in numbers {
        places.push(FoundPlace::make(item.0, item.1))?;
    }
    Ok(places)
}

// Memory for the contents of these numbers, where there is room for a list of all.
fn contents_of(
    alloc: Global,
    numbers: &[(DeviceNumber, u16)],
    room: u32,
) -> Result<Vec<Bytes>, AllocError>
    ensures kept { IfOk result (λ v. length numbers.now ≤ room → v.items ≡ map zeros_for numbers.now) }
    ensures counted { IfOk result (λ v. 0 < length v.items → length numbers.now ≤ room) }
{
    if (room as usize) < numbers.len() {
        return Ok(Vec::new(alloc));
    }
    zeros_of(alloc, numbers)
}

// Zeros for the contents of these numbers.
fn zeros_of(alloc: Global, numbers: &[(DeviceNumber, u16)]) -> Result<Vec<Bytes>, AllocError>
    ensures { IfOk result (λ v. v.items ≡ map zeros_for numbers.now) }
{
    let mut contents = Vec::with_capacity(alloc, numbers.len())?;
    for item in numbers {
        contents.push(Bytes::zeros(alloc, usize::from(item.1))?)?;
    }
    Ok(contents)
}

// Puts the content of a mark into the memory that stands for it, where there is some.
fn keep(contents: &mut Vec<Bytes>, i: usize, kind: MarkKind, content: &[u8])
    requires { (d : List ℕ) → i < length contents.old.items → kind ≡ MarkKind.Content → length content.now ≡ length (get_or contents.old.items i d) }
    ensures { contents.new.items ≡ with_content kind content.now i contents.old.items }
{
    if matches!(kind, MarkKind::Content) && i < contents.len() {
        contents[i].copy_from_slice(content);
    }
}

// The marks of these places as a list.
fn listed(places: Vec<FoundPlace>, contents: Vec<Bytes>, list: MarksRoom) -> Marks
    requires ascend { AreLengths 0 (map number_at places.items) }
    requires whole { AreWhole places.items }
    requires contents { contents.items ≡ map content_at places.items }
    requires empty { list.marks ≡ [] }
    requires room { length places.items ≤ list.room }
    ensures { result ≡ marks_at places.items }
{
    let mut marks = list;
    let mut contents = contents.into_iter();
    for place in places {
        add(&mut marks, place, contents.next());
    }
    marks.into_marks()
}

// Adds the mark of a place behind the others, with its content, where it isn't erased.
fn add(marks: &mut MarksRoom, place: FoundPlace, content: Option<Bytes>)
    requires content { content ≡ Some (content_at place) }
    requires room { 0 < marks.old.room }
    requires above { next_or 0 marks.old.marks ≤ place.number.0 }
    requires whole { IsWhole place }
    requires some { 1 ≤ place.length }
    ensures marks { marks.new.marks ≡ marks.old.marks ++ listed_at place [] }
    ensures room { marks.old.room ≤ marks.new.room + 1 }
{
    let instance = instance_of(place.number);
    match (place.kind, content) {
        (MarkKind::Content, Some(content)) => marks.add(instance, Mark::Content(content)),
        (MarkKind::Invalid, _) => marks.add(instance, Mark::Invalid),
        (MarkKind::Content, None) | (MarkKind::Erased, _) => {}
    }
}
