// The entries of a history.
use crate::{Bytes, Instance, JobKind, Mark, Marks, Reply, ReqResult, Request};

/// What a Pick takes: nothing; a content, with the number of its store where it is a synchronized block's, else 0; or
/// no content, as each of `count` copies was refused, or none was as new as the store `asked` for and the last one
/// was store `got`.
#[derive(Drop)]
pub enum Taken {
    Nothing,
    Content { bytes: Bytes, store: u64 },
    Refused { count: u8 },
    Stale { asked: u64, got: u64, count: u8 },
}

/// One event of the manager. `ops` is the number of changing flash operations (program, erase) that the device was
/// asked for so far, a failed or cut one included.
#[derive(Drop)]
pub enum Entry {
    /// A request was accepted, answered or refused.
    Ask {
        caller: u8,
        request: Request,
        reply: Reply,
    },
    /// A job was taken in hand, for the first time or again after an interruption.
    Pick {
        block: u16,
        job: JobKind,
        taken: Taken,
        ops: u64,
    },
    /// The device stored a mark.
    Wrote {
        instance: Instance,
        mark: Mark,
        ops: u64,
    },
    /// A job ended. `given` is what it gave to RAM or to the caller. `refused` is 0, except where a
    /// read or restore had a content for synchronized RAM and every copy of it was refused: there it counts these.
    Post {
        block: u16,
        result: ReqResult,
        given: Option<Bytes>,
        refused: u8,
        ops: u64,
    },
    /// The power is off.
    Off {
        ops: u64,
    },
    /// A start-up found these marks. Every other instance is erased.
    Found {
        marks: Marks,
        ops: u64,
    },
}
