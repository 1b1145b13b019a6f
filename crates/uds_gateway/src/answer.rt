// Answers, in memory that was taken before.
ghost use Rattle.std.specs.Prelude.{◌≡◌, ◌≤◌, ◌<◌, ◌+◌, [], length, Some, IfOk, OnErr, vec_capacity, option_copied, unwrap_or};
ghost use Rattle.uds_gateway.specs.Answers.{negative, content_answer, read_answer, write_answer, posted_answer};

use crate::NegativeCode;
use crate::asked::READ_SERVICE;
use nvm_moves::{Bytes, ReqResult};
use std::alloc::{AllocError, Global};

/// The memory of an answer that gives so many bytes: behind the service and the identifier.
pub fn answer_room(alloc: Global, count: usize) -> Result<Vec<u8>, AllocError>
    requires { count ≤ 65536 }
    ensures empty { IfOk result (λ room. room.items ≡ []) }
    ensures room { IfOk result (λ room. count + 3 ≤ vec_capacity room) }
{
    Vec::with_capacity(alloc, count + 3)
}

/// A negative answer to a request.
pub fn negative(mut room: Vec<u8>, request: &[u8], code: NegativeCode) -> Bytes
    requires some { 0 < length request.now }
    requires empty { room.items ≡ [] }
    requires room { 3 ≤ vec_capacity room }
    ensures { result ≡ negative request.now code }
{
    let _has_room = room.extend_from_slice(&[0x7f, request[0], code.number()]);
    Bytes::from_vec(room)
}

// To a read that gave a content.
fn content_answer(mut room: Vec<u8>, request: &[u8], given: &[u8]) -> Result<Bytes, AllocError>
    requires some { 3 ≤ length request.now }
    requires empty { room.items ≡ [] }
    ensures ok { IfOk result (λ answer. answer ≡ content_answer request.now (Some given.now)) }
    ensures err { OnErr result (vec_capacity room < length given.now + 3) }
{
    room.extend_from_slice(&[0x62, request[1], request[2]])?;
    room.extend_from_slice(given)?;
    Ok(Bytes::from_vec(room))
}

// To a write.
fn write_answer(mut room: Vec<u8>, request: &[u8], posted: ReqResult) -> Bytes
    requires some { 3 ≤ length request.now }
    requires empty { room.items ≡ [] }
    requires room { 3 ≤ vec_capacity room }
    ensures { result ≡ write_answer request.now posted }
{
    match posted {
        ReqResult::Fine => {
            let _has_room = room.extend_from_slice(&[0x6e, request[1], request[2]]);
            Bytes::from_vec(room)
        }
        _ => negative(room, request, NegativeCode::ProgrammingFailure),
    }
}

// To a read.
fn read_answer(
    room: Vec<u8>,
    request: &[u8],
    posted: ReqResult,
    given: Option<&[u8]>,
) -> Result<Bytes, AllocError>
    requires some { 3 ≤ length request.now }
    requires empty { room.items ≡ [] }
    requires room { 3 ≤ vec_capacity room }
    ensures ok { IfOk result (λ answer. answer ≡ read_answer request.now posted (option_copied given.entry)) }
    ensures err { OnErr result (vec_capacity room < length (unwrap_or (option_copied given.entry) []) + 3) }
{
    match posted {
        ReqResult::Fine | ReqResult::RedundancyFailed | ReqResult::Restored => match given {
            Some(given) => content_answer(room, request, given),
            None => content_answer(room, request, &[]),
        },
        _ => Ok(negative(room, request, NegativeCode::ConditionsNotCorrect)),
    }
}

/// The answer to a request whose job was posted with this result, and gave this. It takes memory only where more is given than
/// there is room for.
pub fn posted_answer(
    room: Vec<u8>,
    request: &[u8],
    posted: ReqResult,
    given: Option<&[u8]>,
) -> Result<Bytes, AllocError>
    requires some { 3 ≤ length request.now }
    requires empty { room.items ≡ [] }
    requires room { 3 ≤ vec_capacity room }
    ensures ok { IfOk result (λ answer. answer ≡ posted_answer request.now posted (option_copied given.entry)) }
    ensures err { OnErr result (vec_capacity room < length (unwrap_or (option_copied given.entry) []) + 3) }
{
    if request[0] == READ_SERVICE {
        read_answer(room, request, posted, given)
    } else {
        Ok(write_answer(room, request, posted))
    }
}
