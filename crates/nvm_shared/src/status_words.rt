// The word that an entry changes.
ghost use Rattle.std.specs.Prelude.{◌≡◌};
ghost use Rattle.nvm_core.specs.nv_base.Result.{code_of};
ghost use Rattle.nvm_core.specs.nv_desk.Latest.{last_of};
ghost use Rattle.nvm_core.specs.nv_desk.Request.{request_lent};
ghost use Rattle.nvm_shared.specs.StatusWords.{told_by, picked_by, told_at, pending_block};

use nvm_core::{
    Entry, Event, Last, LentRequest, Reply, ReqResult, Request, RequestKind, result_code,
};

/// The word of the power, behind those of the blocks. An Off gives it status 1.
pub const OFF_WORD: u32 = 513;

/// How many words there are.
pub const WORD_COUNT: u32 = 514;

/// The word that the last entry changes, and its status, if it changes one.
pub(crate) fn told_last(last: Last<'_>) -> Option<(u32, u8)>
    ensures { result ≡ told_by (last_of last.entry) }
{
    match last {
        Last::Added(entry) => told_by(entry),
        Last::OfJob { event, content: _ } => match event {
            Event::Pick { block, .. } => told_at(ReqResult::Pending, block),
            Event::Post { block, result, .. } => told_at(result, block),
            Event::Wrote { .. } => None,
        },
        Last::OfRequest {
            caller: _,
            request,
            reply,
        } => match reply {
            Reply::Accepted => told_at(ReqResult::Pending, pending_lent(request)?),
            Reply::Refused(_) | Reply::StatusIs(_) | Reply::IndexIs(_) => None,
        },
        Last::Found { marks: _, ops: _ } => None,
    }
}

/// The word that an entry changes, and its status, if it changes one.
pub fn told_by(entry: &Entry) -> Option<(u32, u8)>
    ensures { result ≡ told_by entry.now }
{
    match entry {
        Entry::Ask {
            request,
            reply: Reply::Accepted,
            ..
        } => told_at(ReqResult::Pending, pending_block(request)?),
        Entry::Pick { block, .. } => told_at(ReqResult::Pending, *block),
        Entry::Post { block, result, .. } => told_at(*result, *block),
        Entry::Off { .. } => Some((OFF_WORD, 1)),
        _ => None,
    }
}

/// The block of the last entry, if that is a Pick.
pub(crate) fn picked_last(last: Last<'_>) -> Option<u16>
    ensures { result ≡ picked_by (last_of last.entry) }
{
    match last {
        Last::Added(entry) => picked_by(entry),
        Last::OfJob { event, content: _ } => match event {
            Event::Pick { block, .. } => Some(block),
            Event::Wrote { .. } | Event::Post { .. } => None,
        },
        Last::OfRequest {
            caller: _,
            request: _,
            reply: _,
        } => None,
        Last::Found { marks: _, ops: _ } => None,
    }
}

// The block of a Pick.
fn picked_by(entry: &Entry) -> Option<u16>
    ensures { result ≡ picked_by entry.now }
{
    match entry {
        Entry::Pick { block, .. } => Some(*block),
        _ => None,
    }
}

fn told_at(status: ReqResult, block: u16) -> Option<(u32, u8)>
    ensures { result ≡ told_at (code_of status) block }
{
    let word = u32::from(block);
    if word < OFF_WORD {
        Some((word, result_code(status)))
    } else {
        None
    }
}

fn pending_block(request: &Request) -> Option<u16>
    ensures { result ≡ pending_block request.now }
{
    match request {
        Request::Read { block, .. }
        | Request::Write { block, .. }
        | Request::Restore { block, .. }
        | Request::Erase { block }
        | Request::Invalidate { block } => Some(*block),
        Request::ReadAll | Request::WriteAll => Some(0),
        _ => None,
    }
}

fn pending_lent(request: LentRequest<'_>) -> Option<u16>
    ensures { result ≡ pending_block (request_lent request.entry) }
{
    match request.kind {
        RequestKind::Read { block, .. }
        | RequestKind::Write { block, .. }
        | RequestKind::WriteRam { block, .. }
        | RequestKind::Restore { block, .. }
        | RequestKind::Erase { block }
        | RequestKind::Invalidate { block } => Some(block),
        RequestKind::ReadAll | RequestKind::WriteAll => Some(0),
        _ => None,
    }
}
