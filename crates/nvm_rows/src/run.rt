// The cases one after another.
use crate::between::{try_between, try_faults};
use crate::call::{Called, call};
use crate::callers::show_by_caller;
use crate::case::Case;
use crate::everywhere::try_everywhere;
use crate::judged::show_judged;
use crate::plain::show_plain;
use crate::show::{same_or_not, show_flash, show_text};
use crate::show_stack::show_stack;
use anyhow::Context;
use std::alloc::AllocGlobal;
use std::io::{BufRead, BufReader};
use std::sync::Wait;
use std::thread::Threads;

// Runs a case, and prints what came of it.
fn run<R: Print + AllocGlobal + Threads + Wait + Sync>(rt: &R, case: &Case) -> anyhow::Result<()> {
    if !case.printed.is_empty() {
        return show_judged(rt, case);
    }
    let called = call(rt, &case.words, &case.input, &case.flash, &case.faults)?;
    show_call(rt, case, &called)?;
    if case.again {
        show_again(rt, case, &called)?;
    }
    if case.stack {
        show_stack(rt, case, &called)?;
    }
    if let Some(turns) = &case.plain {
        show_plain(rt, case, turns, &called)?;
    }
    if let Some(share) = case.everywhere {
        try_everywhere(rt, case, share)?;
    }
    if case.each_fault {
        try_faults(rt, case)?;
    }
    for step in &case.between {
        try_between(rt, case, step.as_str())?;
    }
    println!(rt)?;
    Ok(())
}

// What the call of a case wrote and left.
fn show_call<R: Print + AllocGlobal>(rt: &R, case: &Case, called: &Called) -> anyhow::Result<()> {
    let name = &case.name;
    let status = called.status;
    println!(rt; "case {name}")?;
    if case.callers {
        show_by_caller(rt, &called.output)?;
    } else {
        show_text(rt, &called.output)?;
    }
    println!(rt; "status {status}")?;
    if !case.quiet {
        show_flash(rt, &called.flash)?;
    }
    Ok(())
}

// Makes the call of a case once more, and prints whether it wrote and left the same.
fn show_again<R: Print + AllocGlobal + Threads + Wait + Sync>(
    rt: &R,
    case: &Case,
    called: &Called,
) -> anyhow::Result<()> {
    let again = call(rt, &case.words, &case.input, &case.flash, &case.faults)?;
    let what = same_or_not(again.status == called.status && again.left_same(called));
    println!(rt; "again {what}")?;
    Ok(())
}

/// Runs the cases that are read, and prints what came of each.
pub fn run_all<R: Print + AllocGlobal + Input + Threads + Wait + Sync>(
    rt: &R,
) -> anyhow::Result<()> {
    let alloc = rt.alloc();
    let mut case: Option<Case> = None;
    for (i, line) in BufReader::new(alloc, rt.reader())?.lines(alloc).enumerate() {
        take_line(rt, &mut case, line?.as_str()).context(format_args!("the line behind {i}"))?;
    }
    if let Some(case) = &case {
        run(rt, case)?;
    }
    Ok(())
}

// Adds a line to the case that it belongs to. Where another case begins with it, the one before is run.
fn take_line<R: Print + AllocGlobal + Threads + Wait + Sync>(
    rt: &R,
    case: &mut Option<Case>,
    line: &str,
) -> anyhow::Result<()> {
    if let Some(name) = line.strip_prefix("case ") {
        if let Some(case) = case {
            run(rt, case)?;
        }
        *case = Some(Case::named(rt.alloc(), name)?);
    } else if !line.is_empty() && !line.starts_with('#') {
        let case = case.as_mut().context("a case begins with its name")?;
        case.add(rt.alloc(), line)?;
    }
    Ok(())
}
