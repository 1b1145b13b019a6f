// Requests that are repeated with their content.
ghost use Rattle.std.specs.Prelude.{◌≡◌, ◌<◌, IsTrue, IfSome};

use crate::{Bytes, Entry, Reply, Request, all_are};

/// How many slots the latest requests with a long content have.
pub(crate) const SLOTS: usize = 8;

// A shorter content is no longer than what is kept beside it.
const LONG: usize = 64;

fn are_same_replies(one: Reply, other: Reply) -> bool
    ensures { IsTrue result → one ≡ other }
{
    one == other
}

// Whether both are as many bytes of one value.
fn are_same_runs(one: &Bytes, other: &Bytes) -> bool
    ensures { IsTrue result → one.now ≡ other.now }
{
    let one = one.as_slice();
    let other = other.as_slice();
    if one.len() != other.len() || one.len() == 0 {
        return false;
    }
    all_are(one, one[0]) && all_are(other, one[0])
}

fn are_same_requests(one: &Request, other: &Request) -> bool
    ensures { IsTrue result → one.now ≡ other.now }
{
    match (one, other) {
        (
            Request::Write {
                block,
                content: Some(content),
                store,
            },
            Request::Write {
                block: other_block,
                content: Some(other_content),
                store: other_store,
            },
        ) => {
            *block == *other_block
                && *store == *other_store
                && are_same_runs(content, other_content)
        }
        (
            Request::PutRam { block, content },
            Request::PutRam {
                block: other_block,
                content: other_content,
            },
        ) => *block == *other_block && are_same_runs(content, other_content),
        _ => false,
    }
}

/// Whether both are the same request of one caller, of one byte many times, answered alike.
pub(crate) fn are_same(one: &Entry, other: &Entry) -> bool
    ensures { IsTrue result → one.now ≡ other.now }
{
    match (one, other) {
        (
            Entry::Ask {
                caller,
                request,
                reply,
            },
            Entry::Ask {
                caller: other_caller,
                request: other_request,
                reply: other_reply,
            },
        ) => {
            *caller == *other_caller
                && are_same_replies(*reply, *other_reply)
                && are_same_requests(request, other_request)
        }
        _ => false,
    }
}

// The slot of a block with such a content.
#[inline(always)]
fn slot_of_content(block: u16, content: &Bytes) -> Option<usize>
    ensures { IfSome result (λ slot. slot < 8) }
{
    let bytes = content.as_slice();
    if bytes.len() < LONG {
        return None;
    }
    Some((block as usize + bytes[0] as usize) % SLOTS)
}

/// The slot of a request with a long content, by its block and first byte.
#[inline(always)]
pub(crate) fn slot_of(entry: &Entry) -> Option<usize>
    ensures { IfSome result (λ slot. slot < 8) }
{
    match entry {
        Entry::Ask { request, .. } => match request {
            Request::Write {
                block,
                content: Some(content),
                ..
            } => slot_of_content(*block, content),
            Request::PutRam { block, content } => slot_of_content(*block, content),
            _ => None,
        },
        _ => None,
    }
}
