// The steps of `soak`, one by one on a stack.
ghost use Rattle.std.specs.Prelude.{◌≡◌, true};
ghost use Rattle.nvm_top.specs.nvm_flash.Made.{IsOrigin};

use anyhow::{Context, bail};
use fls_model::{MemFlash, mem_flash};
use nv_base::{Bytes, Request};
use nvm_script::{StepKind, StepList, summary_text};
use nvm_top::nvm_flash::{
    CAP, Config, FoundAnswer, MemDevice, Origin, PlainSync, Stack, Turned, give_back, make_stack,
    read,
};
use script_soak::soak_steps;
use std::alloc::Global;
use std::marker::Brand;

/// Makes the steps that `soak` draws from a seed, in so many rounds, on a stack of this configuration over a blank flash in
/// memory. It gives the summary of the history, and the bytes of the flash.
pub fn soak_on_a_stack(
    alloc: Global,
    configuration: &[u8],
    seed: u32,
    count: u32,
) -> anyhow::Result<(Bytes, Vec<u8>)> {
    if count == u32::MAX {
        bail!("too many rounds");
    }
    let config = read(alloc, configuration)?;
    let steps = soak_steps(alloc, &config, seed, count)?;
    let made = make_over(alloc, config, steps, mem_flash(alloc, &[], 0)?);
    let (text, flash) = made.context("a step isn't made on a stack")?;
    Ok((text, flash.bytes().to_vec(alloc)?))
}

// The summary of the history that steps make over a flash, and the flash; None where one isn't made.
fn make_over(
    alloc: Global,
    config: Config,
    steps: StepList,
    flash: MemFlash,
) -> Option<(Bytes, MemFlash)> {
    make_on::<Brand>(alloc, config, steps, flash)
}

// The summary of a stack's history; None where it isn't kept, or there is no memory.
fn kept_summary<D: MemDevice>(alloc: Global, stack: &Stack<D, PlainSync>) -> Option<Bytes> {
    if !stack.keeps_entries() {
        return None;
    }
    summary_text(alloc, stack.history()).ok()
}

// So over the device of this origin.
fn make_on<O: Origin>(
    alloc: Global,
    config: Config,
    steps: StepList,
    flash: MemFlash,
) -> Option<(Bytes, MemFlash)>
    requires { IsOrigin config flash.told 0 O.making O.entry }
{
    let mut stack = make_stack::<MemFlash, O>(alloc, config, flash, 0, CAP).ok()?;
    let is_made = match stack.start() {
        FoundAnswer::Ready => make_all(alloc, steps, &mut stack),
        _ => false,
    };
    let text = kept_summary(alloc, &stack);
    let flash = give_back(stack.into_device());
    let text = text.filter(|_| is_made)?;
    Some((text, flash))
}

// Makes the steps in order, as far as each is made.
fn make_all<D: MemDevice>(alloc: Global, steps: StepList, stack: &mut Stack<D, PlainSync>) -> bool
    requires { stack.old.ready ≡ true }
{
    for step in steps.into_steps() {
        let Ok(made) = step.whole(alloc) else {
            return false;
        };
        if !make(alloc, made.kind, stack) {
            return false;
        }
    }
    true
}

// Makes a step of a kind that `soak` draws.
fn make<D: MemDevice>(alloc: Global, kind: StepKind, stack: &mut Stack<D, PlainSync>) -> bool
    requires { stack.old.ready ≡ true }
    ensures { result ≡ true → stack.new.ready ≡ true }
{
    match kind {
        StepKind::Ask(
            Request::Write {
                block,
                content: Some(content),
                ..
            },
        ) => {
            let request = Request::Write {
                block,
                content: Some(content),
                store: 0,
            };
            stack.ask(alloc, 0, request).is_ok()
        }
        StepKind::Ask(Request::Read { block, ram }) => {
            stack.ask(alloc, 0, Request::Read { block, ram }).is_ok()
        }
        StepKind::Turn { count } => {
            make_turns(stack, count);
            true
        }
        StepKind::Drain => {
            make_turns(stack, u32::MAX);
            true
        }
        StepKind::Restart => matches!(stack.restart(alloc), FoundAnswer::Ready),
        _ => false,
    }
}

// Makes so many turns, or fewer where there is nothing to do any more.
fn make_turns<D: MemDevice>(stack: &mut Stack<D, PlainSync>, count: u32)
    requires { stack.old.ready ≡ true }
    ensures { stack.new.ready ≡ true }
{
    for _ in 0..count {
        if matches!(turn(stack), Turned::Idle) {
            return;
        }
    }
}

// Makes a turn.
fn turn<D: MemDevice>(stack: &mut Stack<D, PlainSync>) -> Turned
    requires { stack.old.ready ≡ true }
    ensures { stack.new.ready ≡ true }
{
    stack.turn()
}
