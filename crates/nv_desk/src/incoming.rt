// A request that comes in.
ghost use Rattle.std.specs.Prelude.{◌≡◌, ◌<◌, ◌≤◌, ◌+◌, ◌^◌, length, IsOk, OnOk};
ghost use Rattle.nv_recorder.specs.Request.{request_lent};
ghost use Rattle.nv_desk.specs.Incoming.{request_in, CanRecord, IsLent};
ghost use Rattle.nv_desk.specs.Rooms.{with_entry};

use crate::memory::take_memory;
use block_machine::nv_base::{Entry, Reply, Request};
use nv_recorder::{LentRequest, Recorder};
use std::alloc::{AllocError, Global};

/// A request that comes in: one that the history takes over, with what the memory of its entries is taken from; or one whose
/// content is lent, which takes none.
#[derive(Drop)]
pub enum Incoming<'a> {
    Owned { alloc: Global, request: Request },
    Lent { request: LentRequest<'a> },
}

impl<'a> Incoming<'a> {
    /// Lends the request.
    #[inline(always)]
    pub fn lent(&self) -> LentRequest<'_>
        ensures { request_lent result ≡ request_in self.now }
    {
        match self {
            Incoming::Owned { request, .. } => LentRequest::of(request),
            Incoming::Lent { request } => *request,
        }
    }

    /// Takes the memory of its entry, and of so many that are reserved. One that is lent has it.
    #[inline(always)]
    pub fn take_memory(&self, history: &mut Recorder, reserved: u32) -> Result<(), AllocError>
        requires few { reserved + 1 < 2 ^ 32 }
        requires comes { CanRecord history.old self.now }
        ensures same { record history.new { reserved = history.old.reserved } ≡ history.old }
        ensures stays { history.old.reserved ≤ history.new.reserved }
        ensures entries { OnOk result (reserved + 1 ≤ history.new.reserved) }
        ensures lent { IsLent self.now → IsOk result }
    {
        match self {
            Incoming::Owned { alloc, .. } => take_memory(*alloc, history, reserved),
            Incoming::Lent { .. } => {
                history.count_on(reserved + 1);
                Ok(())
            }
        }
    }
}

/// Adds the entry of a request, in memory that was taken.
#[inline(always)]
pub fn add_ask(history: &mut Recorder, caller: u8, incoming: Incoming<'_>, reply: Reply)
    requires below { length history.old.entries < history.old.cap }
    requires room { 0 < history.old.reserved }
    requires comes { CanRecord history.old incoming }
    ensures { history.new ≡ with_entry history.old (Entry.Ask caller (request_in incoming.entry) reply) }
{
    match incoming {
        Incoming::Owned { request, .. } => history.add(Entry::Ask {
            caller,
            request,
            reply,
        }),
        Incoming::Lent { request } => history.note_request(caller, request, reply),
    }
}
