// An entry without its content.
ghost use Rattle.std.specs.Prelude.{◌≡◌};
ghost use Rattle.nv_recorder.specs.Event.{entry_of, mark_of, taken_of};

use nv_base::{Bytes, Entry, Instance, JobKind, Mark, ReqResult, Taken};

/// What a Pick takes, as `Taken`: a content stands beside it.
#[derive(Clone, Copy)]
pub enum TakenKind {
    Nothing,
    Content { store: u64 },
    Refused { count: u8 },
    Stale { asked: u64, got: u64, count: u8 },
}

impl TakenKind {
    fn taken(self, content: Option<Bytes>) -> Taken
        ensures { result ≡ taken_of self content }
    {
        match (self, content) {
            (TakenKind::Content { store }, Some(bytes)) => Taken::Content { bytes, store },
            (TakenKind::Content { .. }, None) | (TakenKind::Nothing, _) => Taken::Nothing,
            (TakenKind::Refused { count }, _) => Taken::Refused { count },
            (TakenKind::Stale { asked, got, count }, _) => Taken::Stale { asked, got, count },
        }
    }
}

/// What is written to an instance, as `Mark`: a content stands beside it.
#[derive(Clone, Copy)]
pub enum MarkKind {
    Content,
    Invalid,
    Erased,
}

impl MarkKind {
    fn mark(self, content: Option<Bytes>) -> Mark
        ensures { result ≡ mark_of self content }
    {
        match (self, content) {
            (MarkKind::Content, Some(bytes)) => Mark::Content(bytes),
            (MarkKind::Content, None) | (MarkKind::Erased, _) => Mark::Erased,
            (MarkKind::Invalid, _) => Mark::Invalid,
        }
    }
}

/// An entry of a job without its content, which stands beside it: what a Pick takes, what is written, and what a Post gives.
#[derive(Clone, Copy)]
pub enum Event {
    Pick {
        block: u16,
        job: JobKind,
        taken: TakenKind,
        ops: u64,
    },
    Wrote {
        instance: Instance,
        mark: MarkKind,
        ops: u64,
    },
    Post {
        block: u16,
        result: ReqResult,
        refused: u8,
        ops: u64,
    },
}

impl Event {
    /// The entry with this content.
    pub fn entry(self, content: Option<Bytes>) -> Entry
        ensures { result ≡ entry_of self content }
    {
        match self {
            Event::Pick {
                block,
                job,
                taken,
                ops,
            } => Entry::Pick {
                block,
                job,
                taken: taken.taken(content),
                ops,
            },
            Event::Wrote {
                instance,
                mark,
                ops,
            } => Entry::Wrote {
                instance,
                mark: mark.mark(content),
                ops,
            },
            Event::Post {
                block,
                result,
                refused,
                ops,
            } => Entry::Post {
                block,
                result,
                given: content,
                refused,
                ops,
            },
        }
    }
}
