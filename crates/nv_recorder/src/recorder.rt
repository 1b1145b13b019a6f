// The entries of a history, or what is kept of them.
ghost use Rattle.std.specs.Prelude.{◌≡◌, ◌≤◌, ◌<◌, ◌+◌, ◌-◌, ◌++◌, ◌∷◌, [], true, false, length, slice_get, option_copied, option_map, None, Some, IfOk, IfSome, IsOk, OnOk, OnErr};
ghost use Rattle.nv_recorder.specs.Event.{entry_of};
ghost use Rattle.nv_recorder.specs.Latest.{last_of};
ghost use Rattle.nv_recorder.specs.FoundMarks.{CanList, found_in};
ghost use Rattle.nv_recorder.specs.Recorder.{keeps};
ghost use Rattle.nv_recorder.specs.Request.{request_lent};

use crate::event::Event;
use crate::found_marks::FoundMarks;
use crate::latest::{Last, Latest};
use crate::request::LentRequest;
use crate::rooms::Rooms;
use crate::told::Told;
use nv_base::{Bytes, Entry, History, Reply};
use std::alloc::{AllocError, Global};
use std::marker::Model;

/// The most entries that can be counted. So many are never kept.
pub const ENDLESS: u32 = u32::MAX;

/// The entries of a history in order, how many there may be (its cap), and of how many bytes the content of each may be. A recorder
/// of at most 2^32 - 2 entries keeps them all, in a history. One of 2^32 - 1 keeps their number and the last one: the others are
/// there for proofs alone, as what a start-up found is. Contracts see the entries, the cap, for how many more entries memory is
/// reserved, and the bytes.
#[derive(Drop)]
pub struct Recorder {
    history: History,
    rooms: Rooms,
    latest: Latest,
    told: Told,
    keeps: bool,
    count: u32,
    reserved: u32,
    cap: u32,
}

impl Model for Recorder {
    ghost use Rattle.nv_recorder.specs.Recorder.{IsRecorded, Recorded};

    ghost Value = { Recorded };

    ghost view = { λ r. record { entries = r.told.items; cap = r.cap; reserved = r.reserved; longest = r.rooms.longest } };

    ghost invariant = { λ r. IsRecorded r.history r.rooms r.latest r.told.items r.keeps r.count r.reserved r.cap };
}

impl Recorder {
    /// No entries of at most `cap`, with contents of at most `longest` bytes. Where none is kept, it takes the memory of the last one's
    /// content.
    pub fn make(alloc: Global, cap: u32, longest: usize) -> Result<Recorder, AllocError>
        ensures { IfOk result (λ r. r ≡ record { entries = []; cap = cap; reserved = 0; longest = longest }) }
    {
        let keeps = cap < ENDLESS;
        let latest = Latest::make(alloc, if keeps { 0 } else { longest })?;
        Ok(Recorder {
            history: History::make(alloc, cap),
            rooms: Rooms::new(alloc, longest),
            latest,
            told: Told::nothing(),
            keeps,
            count: 0,
            reserved: 0,
            cap,
        })
    }

    /// How many entries there are.
    pub fn len(&self) -> u32
        ensures count { result ≡ length self.now.entries }
        ensures within { length self.now.entries ≤ self.now.cap }
    {
        let _cap = self.cap;
        self.count
    }

    /// How many entries there may be.
    pub fn cap(&self) -> u32
        ensures { result ≡ self.now.cap }
    {
        self.cap
    }

    /// The last entry, if there is one.
    pub fn last(&self) -> Option<Last<'_>>
        ensures { option_map last_of result ≡ slice_get self.now.entries (length self.now.entries - 1) }
    {
        if !self.keeps {
            return self.latest.get();
        }
        match self.history.entry(self.count.saturating_sub(1)) {
            Some(entry) => Some(Last::Added(entry)),
            None => None,
        }
    }

    /// Whether it keeps all entries.
    pub fn keeps_entries(&self) -> bool
        ensures { result ≡ keeps self.now.cap }
    {
        self.keeps
    }

    /// All entries, where they are kept.
    pub fn history(&self) -> &History
        requires kept { keeps self.now.cap ≡ true }
        ensures entries { result.now.entries ≡ self.now.entries }
        ensures cap { result.now.cap ≡ self.now.cap }
    {
        &self.history
    }

    /// All entries, where they are kept.
    pub fn into_history(self) -> History
        ensures kept { keeps self.cap ≡ true → result.entries ≡ self.entries }
    {
        let Recorder { history, .. } = self;
        history
    }

    /// Sees that memory stands for `count` more entries and the content of each, those that are reserved already counted. Entries that
    /// aren't kept take none. At Err nothing changed.
    pub fn reserve(&mut self, alloc: Global, count: u32) -> Result<(), AllocError>
        ensures same { record self.new { reserved = self.old.reserved } ≡ self.old }
        ensures room { OnOk result (count ≤ self.new.reserved) }
        ensures grows { self.old.reserved ≤ self.new.reserved }
        ensures err { OnErr result (self.new ≡ self.old) }
        ensures counted { keeps self.old.cap ≡ false → IsOk result }
    {
        if count <= self.reserved {
            return Ok(());
        }
        if self.keeps {
            self.history.reserve(count)?;
            self.rooms.provide(alloc, count)?;
        }
        self.reserved = count;
        Ok(())
    }

    /// Counts on `count` more entries, those that are reserved already counted, where entries aren't kept: they take no memory.
    pub fn count_on(&mut self, count: u32)
        requires counted { keeps self.old.cap ≡ false }
        ensures same { record self.new { reserved = self.old.reserved } ≡ self.old }
        ensures room { count ≤ self.new.reserved }
        ensures grows { self.old.reserved ≤ self.new.reserved }
    {
        if self.reserved < count {
            self.reserved = count;
        }
    }

    /// Adds an entry behind the others, in memory that was reserved.
    pub fn add(&mut self, entry: Entry)
        requires below { length self.old.entries < self.old.cap }
        requires room { 0 < self.old.reserved }
        ensures { self.new ≡ record self.old { entries = self.old.entries ++ entry ∷ []; reserved = self.old.reserved - 1 } }
    {
        self.told = self.told.with(&entry);
        self.count += 1;
        self.reserved -= 1;
        if self.keeps {
            self.history.add(entry);
        } else {
            self.latest.add(entry);
        }
    }

    /// Adds the entry of a job, in memory that was reserved. Its content is lent: it is copied where the entry is kept, and else until
    /// the next one is added.
    pub fn note(&mut self, event: Event, content: Option<&[u8]>)
        requires below { length self.old.entries < self.old.cap }
        requires room { 0 < self.old.reserved }
        requires fits { IfSome (option_copied content) (λ x. length x ≤ self.old.longest) }
        ensures { self.new ≡ record self.old {
          entries = self.old.entries ++ entry_of event (option_copied content.entry) ∷ [];
          reserved = self.old.reserved - 1;
        } }
    {
        self.told = self.told.with_lent(event, content);
        self.count += 1;
        self.reserved -= 1;
        if self.keeps {
            let content = owned(&mut self.rooms, content);
            self.history.add(event.entry(content));
        } else {
            self.latest.note(event, content);
        }
    }

    /// Adds the entry of a request, whose content is lent, where entries aren't kept: it stands until the next one is added. It takes no
    /// memory.
    #[inline(always)]
    pub fn note_request(&mut self, caller: u8, request: LentRequest<'_>, reply: Reply)
        requires counted { keeps self.old.cap ≡ false }
        requires below { length self.old.entries < self.old.cap }
        requires room { 0 < self.old.reserved }
        requires fits { length request.content.now ≤ self.old.longest }
        ensures { self.new ≡ record self.old {
          entries = self.old.entries ++ Entry.Ask caller (request_lent request.entry) reply ∷ [];
          reserved = self.old.reserved - 1;
        } }
    {
        self.told = self.told.with_request(caller, request, reply);
        self.count += 1;
        self.reserved -= 1;
        self.latest.note_request(caller, request, reply);
    }

    /// Adds the entry of a start-up that found these marks, in memory that was reserved. Where entries are kept, so is the memory of the
    /// marks. Else it is handed back as it is: the entry stands here until the next one, for proofs alone but for the number of operations.
    pub fn add_found(&mut self, found: FoundMarks, ops: u64) -> Option<FoundMarks>
        requires below { length self.old.entries < self.old.cap }
        requires room { 0 < self.old.reserved }
        requires listed { keeps self.old.cap ≡ true → CanList found }
        ensures entries { self.new ≡ record self.old {
          entries = self.old.entries ++ Entry.Found (found_in found) ops ∷ [];
          reserved = self.old.reserved - 1;
        } }
        ensures kept { keeps self.old.cap ≡ true → result ≡ None }
        ensures counted { keeps self.old.cap ≡ false → result ≡ Some found }
    {
        self.told = self.told.with_found(&found, ops);
        self.count += 1;
        self.reserved -= 1;
        if self.keeps {
            let marks = found.into_marks();
            self.history.add(Entry::Found { marks, ops });
            return None;
        }
        self.latest.note_found(&found, ops);
        Some(found)
    }
}

// A content as bytes of its own.
fn owned(rooms: &mut Rooms, content: Option<&[u8]>) -> Option<Bytes>
    requires some { 0 < rooms.old.count }
    requires fits { IfSome (option_copied content) (λ x. length x ≤ rooms.old.longest) }
    ensures content { result ≡ option_copied content.entry }
    ensures longest { rooms.new.longest ≡ rooms.old.longest }
    ensures count { rooms.old.count ≤ rooms.new.count + 1 }
{
    let content = content?;
    Some(rooms.fill(content))
}
