// The line of a request.
use crate::codes::{refusal_of, result_of};
use crate::words::{Parsed, Words};
use block_machine::block_config::Config;
use block_machine::nv_base::{Entry, Reply, Request};
use nvm_script::{Mode, ScriptFault, StepKind, StepList, read_script};
use std::alloc::{AllocError, Global};

/// A request with its caller and its reply.
pub fn read_ask(alloc: Global, config: &Config, words: Words<'_>) -> Parsed<Entry> {
    let mut words = words;
    let caller = words.small();
    let (step, reply) = words.rest().split_once(" -> ").unwrap_or(("", ""));
    let reply = read_reply(Words::of(reply));
    match read_request(alloc, config, step)? {
        Some(request) => Ok(Some(Entry::Ask {
            caller,
            request,
            reply,
        })),
        None => Ok(None),
    }
}

fn read_reply(words: Words<'_>) -> Reply {
    let mut words = words;
    match words.next() {
        "refused" => Reply::Refused(refusal_of(words.number())),
        "status" => Reply::StatusIs(result_of(words.number())),
        "index" => Reply::IndexIs(words.small()),
        _ => Reply::Accepted,
    }
}

// The request that a step asks.
fn read_request(alloc: Global, config: &Config, step: &str) -> Parsed<Request> {
    match stored_write(step) {
        Some((block, store)) => Ok(Some(Request::Write {
            block,
            content: None,
            store,
        })),
        None => read_step(alloc, config, step),
    }
}

// The block and the store of a write of synchronized RAM, which no step names.
fn stored_write(step: &str) -> Option<(u16, u64)> {
    let mut words = Words::of(step);
    if !words.passes("writeram ") {
        return None;
    }
    let block = words.block();
    if !words.passes("store ") {
        return None;
    }
    Some((block, words.number()))
}

// The request of a step, which is read as the second line of a script.
fn read_step(alloc: Global, config: &Config, step: &str) -> Parsed<Request> {
    let script = format!(in alloc; "\n{step}")?;
    let script = script.as_bytes();
    if script.len() >= u32::MAX as usize {
        return Ok(None);
    }
    match read_script(alloc, script, config, Mode::Play) {
        Ok(steps) => first_request(alloc, &steps),
        Err(ScriptFault::Line { .. }) => Ok(None),
        Err(ScriptFault::Memory) => Err(AllocError),
    }
}

fn first_request(alloc: Global, steps: &StepList) -> Parsed<Request> {
    let Some(step) = steps.get(0) else {
        return Ok(None);
    };
    match step.copy(alloc)?.kind {
        StepKind::Ask(request) => Ok(Some(request)),
        _ => Ok(None),
    }
}
