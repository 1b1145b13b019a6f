// All entries, for proofs alone.
ghost use Rattle.std.specs.Prelude.{◌≡◌, [], ◌∷◌, ◌++◌, List, option_copied};
ghost use Rattle.nv_base.specs.declared.entry.Entry.{Entry};
ghost use Rattle.nv_recorder.specs.Event.{entry_of};
ghost use Rattle.nv_recorder.specs.FoundMarks.{found_in};
ghost use Rattle.nv_recorder.specs.Request.{request_lent};

use crate::{Event, FoundMarks, LentRequest};
use nv_base::{Entry, Reply};
use std::marker::Model;

/// All entries that were added, the oldest first. It has no bytes: contracts read it as `items`.
#[derive(Drop)]
pub struct Told {
    pub ghost items: { List Entry },
}

impl Model for Told {
    ghost use base.Fml.{ftrue};

    ghost also_owns = { λ _. ftrue };
}

// It owns nothing.
unsafe impl Send for Told {}

impl Told {
    /// No entry.
    pub fn nothing() -> Told
        ensures { result.items ≡ [] }
    {
        Told::picked()
    }

    /// With this entry behind the others.
    pub fn with(&self, entry: &Entry) -> Told
        ensures { result.items ≡ self.now.items ++ entry.now ∷ [] }
    {
        behind(self, entry)
    }

    /// With the entry of a job behind them, whose content is lent.
    pub fn with_lent(&self, event: Event, content: Option<&[u8]>) -> Told
        ensures { result.items ≡ self.now.items ++ entry_of event (option_copied content.entry) ∷ [] }
    {
        lent_behind(self, event, content)
    }

    /// With the entry of a request behind them, whose content is lent.
    pub fn with_request(&self, caller: u8, request: LentRequest<'_>, reply: Reply) -> Told
        ensures { result.items ≡ self.now.items ++ Entry.Ask caller (request_lent request.entry) reply ∷ [] }
    {
        request_behind(self, caller, request, reply)
    }

    /// With the entry of a start-up behind them, which found these marks.
    pub fn with_found(&self, found: &FoundMarks, ops: u64) -> Told
        ensures { result.items ≡ self.now.items ++ Entry.Found (found_in found.now) ops ∷ [] }
    {
        found_behind(self, found, ops)
    }

    // The entries that a proof picks.
    fn picked() -> Told
        ghost items: { List Entry }
        ensures { result.items ≡ items }
    {
        Told {}
    }
}

fn behind(told: &Told, entry: &Entry) -> Told
    ghost items: { List Entry }
    requires { items ≡ told.now.items ++ entry.now ∷ [] }
    ensures { result.items ≡ told.now.items ++ entry.now ∷ [] }
{
    Told::picked()
}

fn lent_behind(told: &Told, event: Event, content: Option<&[u8]>) -> Told
    ghost items: { List Entry }
    requires { items ≡ told.now.items ++ entry_of event (option_copied content) ∷ [] }
    ensures { result.items ≡ told.now.items ++ entry_of event (option_copied content.entry) ∷ [] }
{
    Told::picked()
}

fn request_behind(told: &Told, caller: u8, request: LentRequest<'_>, reply: Reply) -> Told
    ghost items: { List Entry }
    requires { items ≡ told.now.items ++ Entry.Ask caller (request_lent request) reply ∷ [] }
    ensures { result.items ≡ told.now.items ++ Entry.Ask caller (request_lent request.entry) reply ∷ [] }
{
    Told::picked()
}

fn found_behind(told: &Told, found: &FoundMarks, ops: u64) -> Told
    ghost items: { List Entry }
    requires { items ≡ told.now.items ++ Entry.Found (found_in found.now) ops ∷ [] }
    ensures { result.items ≡ told.now.items ++ Entry.Found (found_in found.now) ops ∷ [] }
{
    Told::picked()
}
