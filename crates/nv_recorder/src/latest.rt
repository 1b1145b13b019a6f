// The last entry, where no other one is kept.
ghost use Rattle.std.specs.Prelude.{◌≡◌, ◌≤◌, length, Some, None, IfOk, IfSome, option_copied, option_map, if◌then◌else◌};
ghost use Rattle.nv_recorder.specs.Event.{entry_of};
ghost use Rattle.nv_recorder.specs.FoundMarks.{found_in};
ghost use Rattle.nv_recorder.specs.Latest.{last_of};
ghost use Rattle.nv_recorder.specs.Request.{request_lent};

use crate::buffer::Buffer;
use crate::told_marks::ToldMarks;
use crate::{Event, FoundMarks, LentRequest, RequestKind};
use nv_base::{Entry, Reply};
use std::alloc::{AllocError, Global};
use std::marker::Model;

/// An entry that is lent: one that was added, one of a job or of a request, with its content beside it, or one of a start-up, whose
/// marks stand for proofs alone.
pub enum Last<'a> {
    Added(&'a Entry),
    OfJob {
        event: Event,
        content: Option<&'a [u8]>,
    },
    OfRequest {
        caller: u8,
        request: LentRequest<'a>,
        reply: Reply,
    },
    Found {
        marks: &'a ToldMarks,
        ops: u64,
    },
}

/// What stands of the last entry beside a content: one that was added, or one of a job, which may have that content, or of a
/// request, which has it; or one of a start-up, whose marks stand for proofs alone.
#[derive(Drop)]
pub enum Held {
    Nothing,
    Added(Entry),
    OfJob {
        event: Event,
        has: bool,
    },
    OfRequest {
        caller: u8,
        kind: RequestKind,
        reply: Reply,
    },
    Found {
        marks: ToldMarks,
        ops: u64,
    },
}

/// The last entry, with memory for the content of any. Contracts see the entry, and of how many bytes its content may be.
#[derive(Drop)]
pub struct Latest {
    held: Held,
    content: Buffer,
}

impl Model for Latest {
    ghost use Rattle.nv_recorder.specs.Latest.{Kept, latest_of};

    ghost Value = { Kept };

    ghost view = { λ l. record { entry = latest_of l.held l.content.content; room = l.content.room } };
}

impl Latest {
    /// No entry, and the memory of a content of `room` bytes.
    pub fn make(alloc: Global, room: usize) -> Result<Latest, AllocError>
        ensures { IfOk result (λ l. l ≡ record { entry = None; room = room }) }
    {
        Ok(Latest {
            held: Held::Nothing,
            content: Buffer::make(alloc, room)?,
        })
    }

    /// This entry was added last.
    pub fn add(&mut self, entry: Entry)
        ensures { self.new ≡ record self.old { entry = Some entry } }
    {
        self.held = Held::Added(entry);
    }

    /// This entry of a job was. It takes no memory.
    pub fn note(&mut self, event: Event, content: Option<&[u8]>)
        requires { IfSome (option_copied content) (λ x. length x ≤ self.old.room) }
        ensures { self.new ≡ record self.old { entry = Some (entry_of event (option_copied content.entry)) } }
    {
        self.held = Held::OfJob {
            event,
            has: content.is_some(),
        };
        if let Some(content) = content {
            self.content.put(content);
        }
    }

    /// The entry of this request was. It takes no memory.
    #[inline(always)]
    pub fn note_request(&mut self, caller: u8, request: LentRequest<'_>, reply: Reply)
        requires { length request.content.now ≤ self.old.room }
        ensures { self.new ≡ record self.old { entry = Some (Entry.Ask caller (request_lent request.entry) reply) } }
    {
        self.held = Held::OfRequest {
            caller,
            kind: request.kind,
            reply,
        };
        self.content.put(request.content);
    }

    /// The entry of a start-up was, which found these marks. It takes no memory.
    pub fn note_found(&mut self, found: &FoundMarks, ops: u64)
        ensures { self.new ≡ record self.old { entry = Some (Entry.Found (found_in found.now) ops) } }
    {
        let marks = ToldMarks::of(found);
        self.held = Held::Found { marks, ops };
    }

    /// Lends it.
    pub fn get(&self) -> Option<Last<'_>>
        ensures { option_map last_of result ≡ self.now.entry }
    {
        match &self.held {
            Held::Nothing => None,
            Held::Added(entry) => Some(Last::Added(entry)),
            Held::OfJob { event, has } => Some(Last::OfJob {
                event: *event,
                content: given(*has, &self.content),
            }),
            Held::OfRequest {
                caller,
                kind,
                reply,
            } => Some(Last::OfRequest {
                caller: *caller,
                request: LentRequest {
                    kind: *kind,
                    content: self.content.content(),
                },
                reply: *reply,
            }),
            Held::Found { marks, ops } => Some(Last::Found { marks, ops: *ops }),
        }
    }
}

// The content that stands there, if it is one of the entry.
fn given(has: bool, content: &Buffer) -> Option<&[u8]>
    ensures { option_copied result ≡ (if has then Some content.now.content else None) }
{
    if has { Some(content.content()) } else { None }
}
