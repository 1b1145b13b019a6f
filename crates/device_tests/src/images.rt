// The bytes of paired slots, worked out by hand.
use crate::slots::makes_over;
use crate::steps::{Content, Step};
use memif_fee_ea::{MemFlash, mem_flash};
use std::alloc::{AllocError, Global};

type Page = [u8; 16];

const FIRST: Content = [0x11, 0x22, 0x33, 0x44];

const SECOND: Content = [0x55, 0x66, 0x77, 0x88];

// A slot's head: 0x45, the kind, the length, the sequence, and the complements of these eight bytes. A content of four bytes with
// sequence 1, 2, and the last one.
const HEAD_1: Page = [
    0x45, 1, 0, 4, 0, 0, 0, 1, 0xba, 0xfe, 0xff, 0xfb, 0xff, 0xff, 0xff, 0xfe,
];

const HEAD_2: Page = [
    0x45, 1, 0, 4, 0, 0, 0, 2, 0xba, 0xfe, 0xff, 0xfb, 0xff, 0xff, 0xff, 0xfd,
];

const HEAD_LAST: Page = [
    0x45, 1, 0, 4, 0xff, 0xff, 0xff, 0xff, 0xba, 0xfe, 0xff, 0xfb, 0, 0, 0, 0,
];

// An invalid mark with sequence 2, and an erased one with sequence 3.
const INVALID_2: Page = [
    0x45, 2, 0, 0, 0, 0, 0, 2, 0xba, 0xfd, 0xff, 0xff, 0xff, 0xff, 0xff, 0xfd,
];

const ERASED_3: Page = [
    0x45, 3, 0, 0, 0, 0, 0, 3, 0xba, 0xfc, 0xff, 0xff, 0xff, 0xff, 0xff, 0xfc,
];

const GATE: Page = [0; 16];

const BLANK: Page = [0xff; 16];

const BODY_1: Page = [
    0x11, 0x22, 0x33, 0x44, 0xff, 0xff, 0xff, 0xff, 0xff, 0xff, 0xff, 0xff, 0xff, 0xff, 0xff, 0xff,
];

const BODY_2: Page = [
    0x55, 0x66, 0x77, 0x88, 0xff, 0xff, 0xff, 0xff, 0xff, 0xff, 0xff, 0xff, 0xff, 0xff, 0xff, 0xff,
];

// The two slots of a number, each of two sectors of four pages.
const NOTHING: [[Page; 4]; 4] = [[BLANK; 4]; 4];

const ONCE: [[Page; 4]; 4] = [
    [HEAD_1, GATE, BLANK, BLANK],
    [BODY_1, BLANK, BLANK, BLANK],
    [BLANK; 4],
    [BLANK; 4],
];

const TWICE: [[Page; 4]; 4] = [
    [HEAD_1, GATE, BLANK, BLANK],
    [BODY_1, BLANK, BLANK, BLANK],
    [HEAD_2, GATE, BLANK, BLANK],
    [BODY_2, BLANK, BLANK, BLANK],
];

const INVALID: [[Page; 4]; 4] = [
    [HEAD_1, GATE, BLANK, BLANK],
    [BODY_1, BLANK, BLANK, BLANK],
    [INVALID_2, GATE, BLANK, BLANK],
    [BLANK; 4],
];

const ERASED: [[Page; 4]; 4] = [
    [ERASED_3, GATE, BLANK, BLANK],
    [BLANK; 4],
    [INVALID_2, GATE, BLANK, BLANK],
    [BLANK; 4],
];

const TIE: [[Page; 4]; 4] = [
    [HEAD_1, GATE, BLANK, BLANK],
    [BODY_1, BLANK, BLANK, BLANK],
    [HEAD_1, GATE, BLANK, BLANK],
    [BODY_2, BLANK, BLANK, BLANK],
];

const WORN: [[Page; 4]; 4] = [
    [HEAD_LAST, GATE, BLANK, BLANK],
    [BODY_1, BLANK, BLANK, BLANK],
    [BLANK; 4],
    [BLANK; 4],
];

fn bytes_of(alloc: Global, sectors: &[[Page; 4]; 4]) -> Result<Vec<u8>, AllocError> {
    let mut bytes = Vec::new(alloc);
    for pages in sectors {
        for page in pages {
            bytes.extend_from_slice(page)?;
        }
    }
    Ok(bytes)
}

// What these steps leave of an image, where they are as expected.
fn left(alloc: Global, before: &[[Page; 4]; 4], steps: &[Step]) -> Option<MemFlash> {
    let before = bytes_of(alloc, before).ok()?;
    let flash = mem_flash(alloc, &before, 40).ok()?;
    makes_over(alloc, flash, steps)
}

// Whether these steps over one image leave the other.
fn leads(alloc: Global, before: &[[Page; 4]; 4], steps: &[Step], after: &[[Page; 4]; 4]) -> bool {
    match (left(alloc, before, steps), bytes_of(alloc, after)) {
        (Some(flash), Ok(after)) => flash.bytes() == after.as_slice(),
        _ => false,
    }
}

fn is_written(alloc: Global) -> bool {
    let steps = [Step::Start, Step::Write(FIRST), Step::Read(FIRST)];
    leads(alloc, &NOTHING, &steps, &ONCE)
}

#[test]
fn a_first_write(rt: HostRuntime) {
    assert!(rt; is_written(rt.alloc()));
}

fn is_written_twice(alloc: Global) -> bool {
    let steps = [Step::Start, Step::Write(SECOND), Step::Read(SECOND)];
    leads(alloc, &ONCE, &steps, &TWICE)
}

#[test]
fn a_second_write(rt: HostRuntime) {
    assert!(rt; is_written_twice(rt.alloc()));
}

fn is_invalid(alloc: Global) -> bool {
    let steps = [Step::Start, Step::Invalidate, Step::IsInvalid];
    leads(alloc, &ONCE, &steps, &INVALID)
}

fn is_erased(alloc: Global) -> bool {
    let steps = [Step::Start, Step::IsInvalid, Step::Erase, Step::IsErased];
    leads(alloc, &INVALID, &steps, &ERASED)
}

#[test]
fn marks_without_a_content(rt: HostRuntime) {
    assert!(rt; is_invalid(rt.alloc()) && is_erased(rt.alloc()));
}

// Whether of two heads with one sequence slot 0's counts, and the next write goes to the other slot.
fn is_tied(alloc: Global) -> bool {
    let steps = [
        Step::Start,
        Step::Read(FIRST),
        Step::Write(SECOND),
        Step::Read(SECOND),
    ];
    leads(alloc, &TIE, &steps, &TWICE)
}

#[test]
fn two_heads_with_one_sequence(rt: HostRuntime) {
    assert!(rt; is_tied(rt.alloc()));
}

// Whether nothing is written behind the last sequence.
fn is_worn(alloc: Global) -> bool {
    let steps = [
        Step::Start,
        Step::Read(FIRST),
        Step::Worn(SECOND),
        Step::Read(FIRST),
    ];
    leads(alloc, &WORN, &steps, &WORN)
}

#[test]
fn the_last_sequence(rt: HostRuntime) {
    assert!(rt; is_worn(rt.alloc()));
}
