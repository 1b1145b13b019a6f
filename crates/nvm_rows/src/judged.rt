// Histories that are judged by the definitions.
use crate::case::Case;
use anyhow::bail;
use nvm_script::first_line;
use rows_histories::{Tally, Wrong, judge};
use std::alloc::AllocGlobal;

/// Judges a history that the program printed elsewhere, and a start-up behind it. It prints a line for each mark that mustn't
/// stand, and what was counted.
pub fn show_judged<R: Print + AllocGlobal>(rt: &R, case: &Case) -> anyhow::Result<()> {
    let name = &case.name;
    let mut tally = Tally::none();
    println!(rt; "case {name}")?;
    let line = first_line(&case.input);
    let Ok(wrong) = judge(rt.alloc(), line, &case.printed, &case.further, &mut tally) else {
        bail!("{name}: no history");
    };
    show_wrong(rt, name.as_str(), &wrong)?;
    show_tally(rt, tally)?;
    println!(rt)?;
    Ok(())
}

/// The marks that mustn't stand, a line each.
pub fn show_wrong<R: Print>(rt: &R, what: &str, wrong: &[Wrong]) -> anyhow::Result<()> {
    for Wrong { instance, behind } in wrong.iter() {
        let block = instance.block;
        let index = instance.index;
        println!(rt; "{what}: the mark in {block}.{index} isn't allowed behind {behind} entries")?;
    }
    Ok(())
}

/// What was counted.
pub fn show_tally<R: Print>(rt: &R, tally: Tally) -> anyhow::Result<()> {
    let Tally {
        runs,
        cuts,
        start_ups,
        contents,
        invalid,
        erased,
    } = tally;
    println!(rt;
        "runs {runs} cuts {cuts} start-ups {start_ups} contents {contents} invalid {invalid} erased {erased}"
    )?;
    Ok(())
}
