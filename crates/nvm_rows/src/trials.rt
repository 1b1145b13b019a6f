// A case whose script is run again and again.
use crate::call::{Called, call};
use crate::case::Case;
use crate::faults::{Fault, Faults};
use crate::judged::{show_tally, show_wrong};
use crate::lines::{entries_in, words_from};
use crate::ranges::Ranges;
use anyhow::bail;
use nvm_script::first_line;
use rows_histories::{Tally, judge};
use std::alloc::{AllocError, AllocGlobal, Global};
use std::sync::Wait;
use std::thread::Threads;

/// Which runs are made: all, where neighbours that end alike get one line, or a part of them, with a line each: the one at
/// this place, from 0, and from there on each one that comes so many behind the last.
#[derive(Clone, Copy)]
pub enum Share {
    All,
    Part { place: u64, of: u64 },
}

/// The runs of a case's script, with the configuration line that a further start-up needs, how many are passed over before
/// the next one that is made, and what was counted over them.
#[derive(Drop)]
pub struct Trials<'a> {
    case: &'a Case,
    start: Vec<u8>,
    share: Share,
    passed: u64,
    tally: Tally,
}

/// One run: its number, its input, a fault beside those of its case, and from which entry on its history is printed.
#[derive(Clone, Copy)]
pub struct Trial<'a> {
    pub number: u64,
    pub input: &'a [u8],
    pub fault: Option<Fault>,
    pub from: u64,
}

impl<'a> Trials<'a> {
    pub fn of(alloc: Global, case: &'a Case, share: Share) -> Result<Trials<'a>, AllocError> {
        let mut start = first_line(&case.input).to_vec(alloc)?;
        start.extend_from_slice(b"\n")?;
        let passed = match share {
            Share::All => 0,
            Share::Part { place, .. } => place,
        };
        Ok(Trials {
            case,
            start,
            share,
            passed,
            tally: Tally::none(),
        })
    }

    /// Runs under what is tried in them.
    pub fn ranges(&self, what: String) -> Ranges {
        Ranges::of(what, matches!(self.share, Share::Part { .. }))
    }

    // Whether the next run is one of the share.
    fn is_next(&mut self) -> bool {
        if self.passed > 0 {
            self.passed = self.passed.saturating_sub(1);
            return false;
        }
        if let Share::Part { of, .. } = self.share {
            self.passed = of.saturating_sub(1);
        }
        true
    }

    /// Calls the case's command on an input, and judges nothing.
    pub fn call<R: AllocGlobal + Threads + Wait + Sync>(
        &self,
        rt: &R,
        input: &[u8],
        fault: Option<Fault>,
    ) -> Result<Called, AllocError> {
        let faults = self.case.faults.of_flash(rt.alloc(), fault)?;
        call(rt, &self.case.words, input, &self.case.flash, &faults)
    }

    /// The changing operations and the reads of such a call.
    pub fn counts<R: AllocGlobal + Threads + Wait + Sync>(
        &self,
        rt: &R,
        input: &[u8],
    ) -> Result<(u64, u64), AllocError> {
        let called = self.call(rt, input, None)?;
        Ok((called.operations, called.reads))
    }

    /// The entries of the history of such a call.
    pub fn entries<R: AllocGlobal + Threads + Wait + Sync>(
        &self,
        rt: &R,
        input: &[u8],
    ) -> Result<u64, AllocError> {
        Ok(entries_in(&self.call(rt, input, None)?.output))
    }

    /// Makes a run, if it is one of the share. Each start-up behind the first one is judged, and at the end one of a further call on the bytes that
    /// the flash has then. It prints a line for each mark that mustn't stand, and notes how the run ended.
    pub fn run<R: Print + AllocGlobal + Threads + Wait + Sync>(
        &mut self,
        rt: &R,
        ranges: &mut Ranges,
        trial: Trial<'_>,
    ) -> anyhow::Result<()> {
        if !self.is_next() {
            return Ok(());
        }
        let called = self.call(rt, trial.input, trial.fault)?;
        let further = self.further(rt, &called)?;
        self.judge(rt, ranges.what(), trial.number, &called, &further)?;
        let outcome = outcome(rt.alloc(), &called, &further, trial.from)?;
        ranges.note(rt, trial.number, outcome)
    }

    // A further call, on the bytes that a run left.
    fn further<R: AllocGlobal + Threads + Wait + Sync>(
        &self,
        rt: &R,
        called: &Called,
    ) -> Result<Called, AllocError> {
        let none = Faults::none(rt.alloc());
        call(rt, &self.case.words, &self.start, &called.flash, &none)
    }

    // Judges a run and a further start-up, and prints what is wrong.
    fn judge<R: Print + AllocGlobal>(
        &mut self,
        rt: &R,
        what: &str,
        number: u64,
        called: &Called,
        further: &Called,
    ) -> anyhow::Result<()> {
        let (run, further) = (&called.output, &further.output);
        let line = first_line(&self.start);
        let Ok(wrong) = judge(rt.alloc(), line, run, further, &mut self.tally) else {
            bail!("{what} {number}: no history");
        };
        let title = format!(in rt.alloc(); "{what} {number}")?;
        show_wrong(rt, title.as_str(), &wrong)?;
        if entries_in(run) == 0 && !is_untouched(&self.case.flash, &called.flash) {
            println!(rt; "{what} {number}: the flash changed without a start-up")?;
        }
        Ok(())
    }

    /// Prints what was counted over all runs.
    pub fn show<R: Print + AllocGlobal>(&self, rt: &R) -> anyhow::Result<()> {
        show_tally(rt, self.tally)
    }
}

// How a run ended: its status, its entries from one on, and what the further call found.
fn outcome(alloc: Global, called: &Called, further: &Called, from: u64) -> anyhow::Result<String> {
    let status = called.status;
    let shown = words_from(alloc, str::from_utf8(&called.output)?, from)?;
    let found = words_from(alloc, str::from_utf8(&further.output)?, 0)?;
    Ok(format!(in alloc; "status {status}{shown}{found}")?)
}

// Whether these bytes of a flash are those that it had, or blank where it had none.
fn is_untouched(before: &[u8], after: &[u8]) -> bool {
    if before.is_empty() {
        return after.iter().all(|byte| *byte == 255);
    }
    before == after
}
