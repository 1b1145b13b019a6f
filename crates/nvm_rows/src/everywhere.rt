// A script with one cut or one fault at each place.
use crate::case::Case;
use crate::faults::{Failing, Fault};
use crate::spots::{Spot, spots, with_line, with_plan};
use crate::trials::{Share, Trial, Trials};
use nvm_script::first_line;
use nvm_top::nvm_flash::read;
use std::alloc::{AllocError, AllocGlobal, Global};
use std::sync::Wait;
use std::thread::Threads;

/// The bytes of an operation that are done: none, half of a page of the case's configuration, all of it but one, all.
pub fn keeps(alloc: Global, case: &Case) -> anyhow::Result<[u32; 4]> {
    let page = read(alloc, first_line(&case.input))?.geometry().page;
    Ok([0, page / 2, page.saturating_sub(1), page])
}

// A plan so far away that no cut of it comes.
const FAR: u64 = 1_000_000;

/// Runs the script of a case once for each changing operation with a power cut at it, once for each with a fault at it,
/// and once for each read with a fault at it. Each run has a start-up at its end. It prints how those of a share ended, and
/// what was counted over them; of a part it prints first how many runs there are in all.
pub fn try_everywhere<R: Print + AllocGlobal + Threads + Wait + Sync>(
    rt: &R,
    case: &Case,
    share: Share,
) -> anyhow::Result<()> {
    let alloc = rt.alloc();
    let keeps = keeps(alloc, case)?;
    let mut trials = Trials::of(alloc, case, share)?;
    let input = with_line(alloc, &case.input, "restart")?;
    try_each(rt, &mut trials, &input, keeps, share)?;
    trials.show(rt)
}

// The runs of an input.
fn try_each<R: Print + AllocGlobal + Threads + Wait + Sync>(
    rt: &R,
    trials: &mut Trials<'_>,
    input: &[u8],
    keeps: [u32; 4],
    share: Share,
) -> anyhow::Result<()> {
    let (operations, reads) = trials.counts(rt, input)?;
    let places = places(rt, trials, input)?;
    if let Share::Part { .. } = share {
        let each = sum_of(&places).saturating_add(operations);
        let all = each.saturating_mul(4).saturating_add(reads);
        println!(rt; "of {all} runs")?;
    }
    for keep in keeps {
        cut_each(rt, trials, input, &places, keep)?;
        let failing = Failing::Operation { keep };
        fail_each(rt, trials, input, u64::MAX, failing, (0, operations))?;
    }
    fail_each(rt, trials, input, u64::MAX, Failing::Read, (0, reads))
}

// The cuts of an input that keep so many bytes.
fn cut_each<R: Print + AllocGlobal + Threads + Wait + Sync>(
    rt: &R,
    trials: &mut Trials<'_>,
    input: &[u8],
    places: &[Place],
    keep: u32,
) -> anyhow::Result<()> {
    for place in places {
        cut_behind(rt, trials, input, *place, keep)?;
    }
    Ok(())
}

// A place of a plan, with the number of its last cut: one more than the operations that the steps behind it make, where no
// other plan stands. There the plan stands to the end.
#[derive(Clone, Copy)]
struct Place {
    spot: Spot,
    last: u64,
}

// The places of an input.
fn places<R: AllocGlobal + Threads + Wait + Sync>(
    rt: &R,
    trials: &Trials<'_>,
    input: &[u8],
) -> anyhow::Result<Vec<Place>> {
    let mut places: Vec<Place> = Vec::new(rt.alloc());
    for spot in &spots(rt.alloc(), input)? {
        let last = operations_behind(rt, trials, input, *spot)?.saturating_add(1);
        places.push(Place { spot: *spot, last })?;
    }
    Ok(places)
}

fn sum_of(places: &[Place]) -> u64 {
    let mut sum: u64 = 0;
    for place in places {
        sum = sum.saturating_add(place.last);
    }
    sum
}

// A cut at each operation that the steps behind a place make, and at one more.
fn cut_behind<R: Print + AllocGlobal + Threads + Wait + Sync>(
    rt: &R,
    trials: &mut Trials<'_>,
    input: &[u8],
    place: Place,
    keep: u32,
) -> anyhow::Result<()> {
    let alloc = rt.alloc();
    let line = place.spot.line;
    let mut ranges = trials.ranges(format!(in alloc; "cut behind line {line} keep {keep} at")?);
    for number in 1..=place.last {
        let text = with_plan(alloc, input, place.spot.at, number, keep)?;
        let trial = Trial {
            number,
            input: &text,
            fault: None,
            from: u64::MAX,
        };
        trials.run(rt, &mut ranges, trial)?;
    }
    ranges.end(rt)
}

// The operations that the steps behind a place make, where no cut comes.
fn operations_behind<R: AllocGlobal + Threads + Wait + Sync>(
    rt: &R,
    trials: &Trials<'_>,
    input: &[u8],
    spot: Spot,
) -> anyhow::Result<u64> {
    let before = input.get(..spot.at).unwrap_or(input);
    let behind = input.get(..spot.end).unwrap_or(input);
    let behind = with_plan(rt.alloc(), behind, spot.at, FAR, 0)?;
    let (before, _) = trials.counts(rt, before)?;
    let (behind, _) = trials.counts(rt, &behind)?;
    Ok(behind.saturating_sub(before))
}

/// A fault at each of these calls of the flash behind the first of these numbers, to the second one.
pub fn fail_each<R: Print + AllocGlobal + Threads + Wait + Sync>(
    rt: &R,
    trials: &mut Trials<'_>,
    input: &[u8],
    from: u64,
    failing: Failing,
    (before, last): (u64, u64),
) -> anyhow::Result<()> {
    let mut ranges = trials.ranges(title(rt.alloc(), failing)?);
    for number in 1..=last.saturating_sub(before) {
        let nth = before.saturating_add(number);
        let trial = Trial {
            number,
            input,
            fault: Some(Fault { failing, nth }),
            from,
        };
        trials.run(rt, &mut ranges, trial)?;
    }
    ranges.end(rt)
}

fn title(alloc: Global, failing: Failing) -> Result<String, AllocError> {
    match failing {
        Failing::Operation { keep } => format!(in alloc; "operation fails keep {keep} at"),
        Failing::Read => String::from_str(alloc, "read fails at"),
    }
}
