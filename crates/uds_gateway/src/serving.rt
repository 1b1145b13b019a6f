// The answer of a request, over a stack.
ghost use Rattle.std.specs.Prelude.{◌≡◌, ◌≢◌, ◌≤◌, ◌<◌, ◌+◌, ◌++◌, ◌∷◌, ℕ, [], List, Option, length, true, Ok, IfOk, IfErr, OnOk, OnErr, vec_capacity, unwrap_or};
ghost use Rattle.nvm_moves.specs.block_machine.Words.{Entry as Line, Post, ReqResult as Posted, Request as Asked};
ghost use Rattle.nvm_moves.specs.block_machine.Blocks.{desc_of, asked_block as block_of_request};
ghost use Rattle.nvm_moves.specs.nv_desk.Desk.{state_of};
ghost use Rattle.uds_gateway.specs.Answers.{posted_answer as answer_of, negative as negative_of};
ghost use Rattle.uds_gateway.specs.Jobs.{HasNone, IsOwn};
ghost use Rattle.uds_gateway.specs.Serving.{Serves, ServesBy};

use crate::answer::{answer_room, negative, posted_answer};
use crate::job::make_job;
use crate::{AskedFault, NegativeCode, ServeStop, asked_by, length_of};
use nvm_moves::{Bytes, Config, Entry, Event, Last, MemDevice, Reply, Request, Stack, SyncCalls};
use std::alloc::Global;

/// The answer of a request, which isn't empty, over a stack of this configuration that is up and has no job pending. A request that
/// asks for nothing doesn't touch the stack. Else `serve` asks as caller 0, and makes turns to the Post; behind an answer no job is
/// pending. The memory of the answer is taken before the Ask. At `Off` the job stays pending until the next start-up; at `NoRoom`
/// and `Memory` nothing was added.
pub fn serve<D: MemDevice, C: SyncCalls + Drop>(
    alloc: Global,
    config: &Config,
    stack: &mut Stack<D, C>,
    request: &[u8],
) -> Result<Bytes, ServeStop>
    requires some { 0 < length request.now }
    requires ready { stack.old.ready ≡ true }
    requires configuration { stack.old.desk.config ≡ config.now }
    requires none { HasNone (state_of stack.old.desk) }
    ensures serves { Serves config.now request.now result stack.old.desk stack.new.desk }
    ensures ready { stack.new.ready ≡ true }
    ensures none { OnOk result (HasNone (state_of stack.new.desk)) }
{
    match asked_by(alloc, config, request) {
        Ok(asked) => ask(alloc, config, stack, request, asked),
        Err(AskedFault::Refused(code)) => refuse(alloc, request, code),
        Err(AskedFault::Memory) => Err(ServeStop::Memory),
    }
}

// Nothing is asked.
fn refuse(alloc: Global, request: &[u8], code: NegativeCode) -> Result<Bytes, ServeStop>
    requires some { 0 < length request.now }
    ensures ok { IfOk result (λ answer. answer ≡ negative_of request.now code) }
    ensures err { IfErr result (λ stop. stop ≡ ServeStop.Memory) }
{
    let room = answer_room(alloc, 0)?;
    Ok(negative(room, request, code))
}

// Makes the job, and answers by its Post.
fn ask<D: MemDevice, C: SyncCalls + Drop>(
    alloc: Global,
    config: &Config,
    stack: &mut Stack<D, C>,
    request: &[u8],
    asked: Request,
) -> Result<Bytes, ServeStop>
    requires long { 3 ≤ length request.now }
    requires own { IsOwn asked }
    requires ready { stack.old.ready ≡ true }
    requires configuration { stack.old.desk.config ≡ config.now }
    requires none { HasNone (state_of stack.old.desk) }
    ensures serves { ServesBy config.now request.now (Ok asked) result stack.old.desk stack.new.desk }
    ensures ready { stack.new.ready ≡ true }
    ensures none { OnOk result (HasNone (state_of stack.new.desk)) }
{
    let room = answer_room(alloc, length_of(config, asked_block(&asked)))?;
    match make_job(alloc, asked, stack) {
        Ok(reply) => match reply {
            Reply::Accepted => last_answer(stack, room, request),
            _ => Ok(negative(room, request, NegativeCode::ConditionsNotCorrect)),
        },
        Err(stop) => Err(stop),
    }
}

// The block of a read or a write.
fn asked_block(asked: &Request) -> u16
    ensures { IsOwn asked.now → result ≡ block_of_request asked.now }
{
    match asked {
        Request::Read { block, .. } | Request::Write { block, .. } => *block,
        _ => 0,
    }
}

// The answer by the last entry, a Post.
fn last_answer<D: MemDevice, C: SyncCalls + Drop>(
    stack: &Stack<D, C>,
    room: Vec<u8>,
    request: &[u8],
) -> Result<Bytes, ServeStop>
    requires long { 3 ≤ length request.now }
    requires empty { room.items ≡ [] }
    requires room { 3 ≤ vec_capacity room }
    ensures ok { IfOk result (λ answer. (h : List Line) (block : ℕ) (posted : Posted) (given : Option (List ℕ)) (refused ops : ℕ)
        → stack.now.desk.entries ≡ h ++ Post block posted given refused ops ∷ [] → answer ≡ answer_of request.now posted given) }
    ensures err { IfErr result (λ stop. (stop ≡ ServeStop.Memory) × ((h : List Line) (block : ℕ) (posted : Posted) (given : Option (List ℕ)) (refused ops : ℕ)
        → stack.now.desk.entries ≡ h ++ Post block posted given refused ops ∷ [] → vec_capacity room < length (unwrap_or given []) + 3)) }
{
    match stack.last() {
        Some(Last::Added(entry)) => match entry {
            Entry::Post {
                result,
                given: Some(given),
                ..
            } => Ok(posted_answer(room, request, *result, Some(given.as_slice()))?),
            Entry::Post {
                result,
                given: None,
                ..
            } => Ok(posted_answer(room, request, *result, None)?),
            _ => Ok(negative(room, request, NegativeCode::ConditionsNotCorrect)),
        },
        Some(Last::OfJob { event, content }) => match event {
            Event::Post { result, .. } => Ok(posted_answer(room, request, result, content)?),
            Event::Pick { .. } | Event::Wrote { .. } => Ok(negative(
                room,
                request,
                NegativeCode::ConditionsNotCorrect,
            )),
        },
        Some(
            Last::OfRequest {
                caller: _,
                request: _,
                reply: _,
            },
        ) => Ok(negative(room, request, NegativeCode::ConditionsNotCorrect)),
        Some(Last::Found { marks: _, ops: _ }) => Ok(negative(
            room,
            request,
            NegativeCode::ConditionsNotCorrect,
        )),
        None => Ok(negative(room, request, NegativeCode::ConditionsNotCorrect)),
    }
}
