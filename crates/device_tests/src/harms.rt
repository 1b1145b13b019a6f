// What a start-up finds behind a power cut and behind a failure at each operation of a write, and of the write behind one that
// failed. Each check is None where something isn't as expected, or for want of memory.
use crate::slots::makes_over;
use crate::steps::{Content, Step};
use fls_devices::{Cutter, FaultScript};
use memif_fee_ea::{Flash, MemFlash, mem_flash};
use std::alloc::{AllocError, Global};

const OLDER: Content = [1, 2, 3, 4];

const OLD: Content = [0x11, 0x22, 0x33, 0x44];

const NEW: Content = [0x55, 0x66, 0x77, 0x88];

const NEXT: Content = [9, 9, 9, 9];

// The operations before the write that is harmed: those of two writes, so that the older content stands where it goes.
const BEFORE: u64 = 10;

// The first operation of a write, by which the head of the slot goes, and the last one, by which the new one counts.
const ERASE: u32 = 1;

const GATE: u32 = 5;

/// How many bytes of an operation are done: none, a part of a page, all but one, all. An erase is done where some are.
pub(crate) const KEEPS: [u32; 4] = [0, 8, 15, 16];

/// An operation of a write that is cut or fails, counted from 1, with so many bytes of it done.
#[derive(Clone, Copy)]
pub(crate) struct Harm {
    pub(crate) nth: u32,
    pub(crate) keep: u32,
}

impl Harm {
    // Whether all of the gate is done, so that the slot stands.
    fn is_whole_gate(self) -> bool {
        self.nth == GATE && self.keep == 16
    }

    // Whether what stood in the slot is still there.
    fn is_before_the_erase(self) -> bool {
        self.nth == ERASE && self.keep == 0
    }
}

// Each operation of a write, with each count of bytes.
fn harms(alloc: Global) -> Result<Vec<Harm>, AllocError> {
    let mut harms = Vec::new(alloc);
    for nth in ERASE..=GATE {
        for keep in KEEPS {
            harms.push(Harm { nth, keep })?;
        }
    }
    Ok(harms)
}

// What is found behind a harm of the write of the new content.
fn found_behind(harm: Harm) -> Content {
    if harm.is_whole_gate() { NEW } else { OLD }
}

// What is found where the write behind a failed one is harmed too. It goes to the same slot, so its erase takes what the failed
// one left there.
fn found_behind_both(first: Harm, second: Harm) -> Content {
    if second.is_whole_gate() {
        NEXT
    } else if second.is_before_the_erase() {
        found_behind(first)
    } else {
        OLD
    }
}

fn cut(content: Content, harm: Harm) -> Step {
    Step::Cut {
        content,
        nth: harm.nth,
        keep: harm.keep,
    }
}

fn fail(content: Content, harm: Harm) -> Step {
    Step::Fail {
        content,
        nth: harm.nth,
    }
}

// Two writes, and these steps behind them.
fn makes_behind<F: Flash + Drop>(alloc: Global, flash: F, steps: &[Step]) -> Option<F> {
    let mut all = Vec::new(alloc);
    all.push(Step::Start).ok()?;
    all.push(Step::Write(OLDER)).ok()?;
    all.push(Step::Write(OLD)).ok()?;
    all.extend_from_slice(steps).ok()?;
    makes_over(alloc, flash, &all)
}

// Another device over the flash finds this content and goes on, and so does one behind it.
fn finds<F: Flash + Drop>(alloc: Global, flash: F, content: Content) -> Option<()> {
    let found = [
        Step::Start,
        Step::Read(content),
        Step::Write(NEXT),
        Step::Read(NEXT),
    ];
    let flash = makes_over(alloc, flash, &found)?;
    makes_over(alloc, flash, &[Step::Start, Step::Read(NEXT)])?;
    Some(())
}

/// A flash whose power can be cut once.
pub(crate) fn cutter(alloc: Global) -> Option<Cutter<MemFlash>> {
    let flash = mem_flash(alloc, &[], 40).ok()?;
    Cutter::make(alloc, flash, 1).ok()
}

// One of which these operations fail besides.
fn failing(alloc: Global, faults: &[(u64, u32)]) -> Option<FaultScript<Cutter<MemFlash>>> {
    FaultScript::make(alloc, cutter(alloc)?, faults, &[]).ok()
}

// A failure so many operations behind these.
fn fault(harm: Harm, before: u64) -> (u64, u32) {
    (before.saturating_add(u64::from(harm.nth)), harm.keep)
}

// A write that is cut, for another device and for a start-up of its own.
fn cut_holds(alloc: Global, harm: Harm) -> Option<()> {
    let cut = cut(NEW, harm);
    let found = found_behind(harm);
    let flash = makes_behind(alloc, cutter(alloc)?, &[cut])?;
    finds(alloc, flash, found)?;
    let own = [
        cut,
        Step::Start,
        Step::Read(found),
        Step::Write(NEXT),
        Step::Read(NEXT),
    ];
    makes_behind(alloc, cutter(alloc)?, &own)?;
    Some(())
}

// A write that fails: what was settled stays, the next write is done, and a start-up finds what the bytes hold.
fn failure_holds(alloc: Global, harm: Harm) -> Option<()> {
    let failure = fail(NEW, harm);
    let faults = [fault(harm, BEFORE)];
    let flash = makes_behind(alloc, failing(alloc, &faults)?, &[failure, Step::Read(OLD)])?;
    finds(alloc, flash, found_behind(harm))?;
    let on = [
        failure,
        Step::Read(OLD),
        Step::Write(NEXT),
        Step::Read(NEXT),
        Step::Start,
        Step::Read(NEXT),
    ];
    makes_behind(alloc, failing(alloc, &faults)?, &on)?;
    Some(())
}

// A write that fails and a next one that is cut.
fn cut_behind_holds(alloc: Global, first: Harm, second: Harm) -> Option<()> {
    let flash = failing(alloc, &[fault(first, BEFORE)])?;
    let flash = makes_behind(alloc, flash, &[fail(NEW, first), cut(NEXT, second)])?;
    finds(alloc, flash, found_behind_both(first, second))
}

// A write that fails and a next one that fails too.
fn failure_behind_holds(alloc: Global, first: Harm, second: Harm) -> Option<()> {
    let failed = fault(first, BEFORE);
    let faults = [failed, fault(second, failed.0)];
    let steps = [fail(NEW, first), fail(NEXT, second), Step::Read(OLD)];
    let flash = makes_behind(alloc, failing(alloc, &faults)?, &steps)?;
    finds(alloc, flash, found_behind_both(first, second))
}

fn all_hold(alloc: Global) -> Option<()> {
    for harm in &harms(alloc).ok()? {
        cut_holds(alloc, *harm)?;
        failure_holds(alloc, *harm)?;
    }
    Some(())
}

#[test]
fn a_harm_at_each_operation(rt: HostRuntime) {
    assert!(rt; all_hold(rt.alloc()).is_some());
}

fn all_hold_behind(alloc: Global, first: Harm) -> Option<()> {
    for second in &harms(alloc).ok()? {
        cut_behind_holds(alloc, first, *second)?;
        failure_behind_holds(alloc, first, *second)?;
    }
    Some(())
}

fn all_pairs_hold(alloc: Global) -> Option<()> {
    for first in &harms(alloc).ok()? {
        all_hold_behind(alloc, *first)?;
    }
    Some(())
}

#[test]
fn a_harm_behind_a_failure_at_each_operation(rt: HostRuntime) {
    assert!(rt; all_pairs_hold(rt.alloc()).is_some());
}
