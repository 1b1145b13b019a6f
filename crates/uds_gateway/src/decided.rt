// The answer of a request, by entries of a history.
ghost use Rattle.std.specs.Prelude.{◌≡◌, ◌<◌, ◌≤◌, ◌-◌, [], drop, length, take, IfOk};
ghost use Rattle.uds_gateway.specs.Answers.{answer_at, answer_in, uds};

use crate::answer::{answer_room, negative, posted_answer};
use crate::{AskedFault, NegativeCode, asked_by};
use nvm_moves::{Bytes, Config, Entry, History, Reply};
use std::alloc::{AllocError, Global};

/// The answer of a request, which isn't empty, by the entries of a history from one place to another: `None` where none of them
/// decides, as before the Post.
pub fn piece_answer(
    alloc: Global,
    config: &Config,
    request: &[u8],
    history: &History,
    from: u32,
    to: u32,
) -> Result<Option<Bytes>, AllocError>
    requires some { 0 < length request.now }
    ensures { IfOk result (λ answer. answer ≡ uds config.now request.now (take (to - from) (drop from history.now.entries))) }
{
    match asked_by(alloc, config, request) {
        Ok(_asked) => answer_in(alloc, request, history, from, to),
        Err(AskedFault::Refused(code)) => {
            let room = answer_room(alloc, 0)?;
            Ok(Some(negative(room, request, code)))
        }
        Err(AskedFault::Memory) => Err(AllocError),
    }
}

// That of one that asks for something.
fn answer_in(
    alloc: Global,
    request: &[u8],
    history: &History,
    from: u32,
    to: u32,
) -> Result<Option<Bytes>, AllocError>
    requires long { 3 ≤ length request.now }
    ensures { IfOk result (λ answer. answer ≡ answer_in request.now (take (to - from) (drop from history.now.entries))) }
{
    for i in from..to {
        if let Some(entry) = history.entry(i) {
            let answer = answer_at(alloc, request, entry)?;
            if answer.is_some() {
                return Ok(answer);
            }
        }
    }
    Ok(None)
}

// What an entry decides.
fn answer_at(alloc: Global, request: &[u8], entry: &Entry) -> Result<Option<Bytes>, AllocError>
    requires long { 3 ≤ length request.now }
    ensures { IfOk result (λ answer. answer ≡ answer_at request.now entry.now) }
{
    match entry {
        Entry::Ask {
            reply: Reply::Refused(_why),
            ..
        } => {
            let room = answer_room(alloc, 0)?;
            Ok(Some(negative(room, request, NegativeCode::ConditionsNotCorrect)))
        }
        Entry::Post { result, given, .. } => {
            let room = answer_room(alloc, 0)?;
            let given = match given {
                Some(given) => Some(given.as_slice()),
                None => None,
            };
            let answer = posted_answer(room, request, *result, given)?;
            Ok(Some(answer))
        }
        _ => Ok(None),
    }
}
