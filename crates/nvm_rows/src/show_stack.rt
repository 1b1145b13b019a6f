// The steps of `soak`, one by one on a stack.
use crate::call::Called;
use crate::case::{Case, number};
use crate::show::same_or_not;
use crate::stack::soak_on_a_stack;
use anyhow::{Context, bail};
use nvm_script::first_line;
use std::alloc::AllocGlobal;

/// Makes the steps that a case's `soak` draws on a stack over a blank flash in memory, and prints whether the summary of
/// its history and the bytes of its flash are those of the call.
pub fn show_stack<R: Print + AllocGlobal>(
    rt: &R,
    case: &Case,
    called: &Called,
) -> anyhow::Result<()> {
    let (seed, count) = drawn_by(case)?;
    let line = first_line(&case.input);
    let (text, flash) = soak_on_a_stack(rt.alloc(), line, seed, count)?;
    let is_same = text.as_slice() == called.output.as_slice()
        && flash.as_slice() == called.flash.as_slice();
    let what = same_or_not(is_same);
    println!(rt; "on a stack {what}")?;
    Ok(())
}

// The seed and the count of a case's words.
fn drawn_by(case: &Case) -> anyhow::Result<(u32, u32)> {
    let [_, _, seed, count] = case.words.as_slice() else {
        bail!("no words of soak");
    };
    let seed = u32::try_from(number(seed.as_str())?).context("a seed")?;
    let count = u32::try_from(number(count.as_str())?).context("a count")?;
    Ok((seed, count))
}
