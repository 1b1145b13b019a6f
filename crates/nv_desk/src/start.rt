// Start-ups.
ghost use Rattle.std.specs.Prelude.{◌≡◌, ◌≤◌, ◌+◌, ◌++◌, ◌∷◌, ◌↔◌, [], length, IsTrue, true, false, None, IfOk, IsSomeAnd, IsOk, OnOk, OnErr};
ghost use Rattle.nv_desk.specs.Desk.{first_desk, state_of};
ghost use Rattle.block_machine.specs.block_config.Lengths.{lengths_of};
ghost use Rattle.nv_recorder.specs.FoundMarks.{CanList, found_in, numbers_of};
ghost use Rattle.nv_recorder.specs.Recorder.{keeps};

use crate::Desk;
use crate::drop_jobs::drop_jobs;
use crate::found::note_found;
use crate::longest::longest_content;
use crate::memory::take_memory;
use crate::places::Places;
use block_machine::nv_base::{Entry, History};
use nv_recorder::{FoundMarks, Recorder};
use std::alloc::{AllocError, Global};
use std::mem;

impl Desk {
    /// Whether the entry of a start-up fits under the cap, with an Off behind it.
    pub fn fits_found(&self) -> bool
        ensures { IsTrue result ↔ (length self.now.entries + 2 ≤ self.now.cap) }
    {
        self.history.cap() - self.history.len() >= 2
    }

    /// Takes the memory of a start-up's entry, and of an Off behind it, where that isn't taken since the last entry: none where entries
    /// are counted. At Err nothing changed.
    pub fn room_for_found(&mut self, alloc: Global) -> Result<(), AllocError>
        ensures ok { OnOk result (self.new ≡ record self.old { prepared = length self.old.entries }) }
        ensures err { OnErr result (self.new ≡ self.old) }
        ensures counted { keeps self.old.cap ≡ false → IsOk result }
    {
        if self.prepared == self.history.len() {
            return Ok(());
        }
        take_memory(alloc, &mut self.history, 1)?;
        self.prepared = self.history.len();
        Ok(())
    }

    /// Hands the history out, with the entries where they are kept, and begins an empty one, as before the first start-up, with the memory of that start-up's entry and
    /// of an Off behind it. What was pending is gone. At Err nothing changed.
    #[tactic(auto, using(crate::proofs::Entries::memory_kept))]
    pub fn hand_out(&mut self, alloc: Global) -> Result<History, AllocError>
        requires started { IsTrue (state_of self.old).started }
        ensures history { IfOk result (λ h. keeps self.old.cap ≡ true → h.entries ≡ self.old.entries) }
        ensures ok { OnOk result (self.new ≡ first_desk self.old.config self.old.cap) }
        ensures fits { OnOk result (2 ≤ self.old.cap) }
        ensures err { OnErr result (self.new ≡ self.old) }
    {
        let places = Places::make(alloc, &self.config)?;
        let longest = longest_content(&self.config);
        let mut history = Recorder::make(alloc, self.history.cap(), longest)?;
        take_memory(alloc, &mut history, 1)?;
        self.kept.forget();
        self.places = places;
        self.prepared = 0;
        Ok(mem::replace(&mut self.history, history).into_history())
    }

    /// A start-up found these marks: what was pending is gone, and each content is back in its block's place. It takes no memory, since
    /// that of its entry was taken with no entry since. Where entries are kept, so is the memory of the marks; else it is handed back, for
    /// those of a further start-up.
    pub fn start_up(&mut self, found: FoundMarks, ops: u64) -> Option<FoundMarks>
        requires fits { length self.old.entries + 2 ≤ self.old.cap }
        requires prepared { self.old.prepared ≡ length self.old.entries }
        requires numbers { numbers_of found ≡ lengths_of self.old.config }
        requires listed { keeps self.old.cap ≡ true → CanList found }
        ensures entry { self.new ≡ record self.old { entries = self.old.entries ++ Entry.Found (found_in found) ops ∷ [] } }
        ensures kept { keeps self.old.cap ≡ true → result ≡ None }
        ensures counted { keeps self.old.cap ≡ false → IsSomeAnd result (λ back. numbers_of back ≡ lengths_of self.old.config) }
    {
        drop_jobs(&self.config, &mut self.kept.jobs, &mut self.places);
        self.kept.start_up(&self.config);
        note_found(&mut self.kept, &self.config, &found);
        self.history.add_found(found, ops)
    }
}
