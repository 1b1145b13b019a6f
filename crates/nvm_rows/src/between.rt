// A step or a fault at each turn of a job.
use crate::case::Case;
use crate::everywhere::{fail_each, keeps};
use crate::faults::Failing;
use crate::ranges::Ranges;
use crate::spots::with_line;
use crate::trials::{Share, Trial, Trials};
use anyhow::Context;
use std::alloc::{AllocError, AllocGlobal, Global};
use std::sync::Wait;
use std::thread::Threads;

// No job has so many turns.
const MOST_TURNS: u64 = 1_000;

/// Runs the script of a case with a step behind no turn of its last `drain`, behind the first one, and so on until
/// nothing is left of it, and prints what the step and the turns behind it came to.
pub fn try_between<R: Print + AllocGlobal + Threads + Wait + Sync>(
    rt: &R,
    case: &Case,
    step: &str,
) -> anyhow::Result<()> {
    let alloc = rt.alloc();
    let mut trials = Trials::of(alloc, case, Share::All)?;
    let before = before_the_drain(case)?;
    let whole = trials.entries(rt, &case.input)?;
    let mut ranges = trials.ranges(format!(in alloc; "{step} behind turns")?);
    for number in 0..MOST_TURNS {
        let from = step_behind(rt, &mut trials, &mut ranges, before, step, number)?;
        if from == whole {
            break;
        }
    }
    ranges.end(rt)?;
    trials.show(rt)
}

// Runs a script with a step behind so many turns more, and a drain behind that. It gives the entries before the step.
fn step_behind<R: Print + AllocGlobal + Threads + Wait + Sync>(
    rt: &R,
    trials: &mut Trials<'_>,
    ranges: &mut Ranges,
    before: &[u8],
    step: &str,
    number: u64,
) -> anyhow::Result<u64> {
    let text = with_turns(rt.alloc(), before, number)?;
    let from = trials.entries(rt, &text)?;
    let input = with_step(rt.alloc(), &text, step)?;
    let trial = Trial {
        number,
        input: &input,
        fault: None,
        from,
    };
    trials.run(rt, ranges, trial)?;
    Ok(from)
}

// A script with a step behind it, and a drain.
fn with_step(alloc: Global, text: &[u8], step: &str) -> Result<Vec<u8>, AllocError> {
    let text = with_line(alloc, text, step)?;
    with_line(alloc, &text, "drain")
}

/// Runs the script of a case once for each changing operation and each read of its last `drain` with a fault at it, and
/// prints what that drain came to.
pub fn try_faults<R: Print + AllocGlobal + Threads + Wait + Sync>(
    rt: &R,
    case: &Case,
) -> anyhow::Result<()> {
    let mut trials = Trials::of(rt.alloc(), case, Share::All)?;
    let before = before_the_drain(case)?;
    let from = trials.entries(rt, before)?;
    let before = trials.counts(rt, before)?;
    let whole = trials.counts(rt, &case.input)?;
    for keep in keeps(rt.alloc(), case)? {
        let failing = Failing::Operation { keep };
        let operations = (before.0, whole.0);
        fail_each(rt, &mut trials, &case.input, from, failing, operations)?;
    }
    let reads = (before.1, whole.1);
    fail_each(rt, &mut trials, &case.input, from, Failing::Read, reads)?;
    trials.show(rt)
}

// The script up to its last step, which is a drain.
fn before_the_drain(case: &Case) -> anyhow::Result<&[u8]> {
    let before = case.input.as_slice().strip_suffix(b"drain\n");
    before.context("a drain at the end")
}

// A script with so many turns behind it.
fn with_turns(alloc: Global, text: &[u8], turns: u64) -> Result<Vec<u8>, AllocError> {
    if turns == 0 {
        return text.to_vec(alloc);
    }
    let step = format!(in alloc; "turn {turns}")?;
    with_line(alloc, text, step.as_str())
}
