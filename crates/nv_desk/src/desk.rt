// The desk.
ghost use Rattle.std.specs.Prelude.{◌≡◌, ◌≤◌, ◌-◌, true, length, slice_get, option_map, IfOk};
ghost use Rattle.nv_desk.specs.Desk.{first_desk};
ghost use Rattle.nv_recorder.specs.Latest.{last_of};
ghost use Rattle.nv_recorder.specs.Recorder.{keeps};

use crate::longest::longest_content;
use crate::memory::take_memory;
use crate::places::Places;
use block_machine::block_config::Config;
use block_machine::nv_base::History;
use nv_desk_state::{Kept, sweep_share};
use nv_recorder::{Last, Recorder};
use std::alloc::{AllocError, Global};
use std::marker::Model;

/// The desk: its configuration, and the history of what it was asked and did. Contracts see these, with the most entries
/// that the history may have (its cap).
#[derive(Drop)]
pub struct Desk {
    pub(crate) config: Config,
    pub(crate) history: Recorder,
    pub(crate) kept: Kept,
    pub(crate) places: Places,
    pub(crate) prepared: u32,
    pub(crate) read_share: u32,
    pub(crate) write_share: u32,
}

impl Model for Desk {
    ghost use Rattle.nv_desk.specs.Desk.{DeskState, shown, IsKept};

    ghost Value = { DeskState };

    ghost view = { shown };

    ghost invariant = { IsKept };
}

impl Desk {
    /// The desk of a configuration before the first start-up, with a history of at most `cap` entries. It takes the memory of
    /// that start-up's entry, and of an Off behind it, and a place for the content of each block.
    pub fn make(alloc: Global, config: Config, cap: u32) -> Result<Desk, AllocError>
        ensures { IfOk result (λ d. d ≡ first_desk config cap) }
    {
        let kept = Kept::make(alloc, &config)?;
        let places = Places::make(alloc, &config)?;
        let mut history = Recorder::make(alloc, cap, longest_content(&config))?;
        take_memory(alloc, &mut history, 1)?;
        let read_share = sweep_share(&config, false);
        let write_share = sweep_share(&config, true);
        Ok(Desk {
            config,
            history,
            kept,
            places,
            prepared: 0,
            read_share,
            write_share,
        })
    }

    /// How many entries there are.
    pub fn len(&self) -> u32
        ensures count { result ≡ length self.now.entries }
        ensures within { length self.now.entries ≤ self.now.cap }
    {
        self.history.len()
    }

    /// The last entry, if there is one.
    pub fn last(&self) -> Option<Last<'_>>
        ensures { option_map last_of result ≡ slice_get self.now.entries (length self.now.entries - 1) }
    {
        self.history.last()
    }

    /// Whether it keeps all entries: one of fewer than 2^32 - 1 does.
    pub fn keeps_entries(&self) -> bool
        ensures { result ≡ keeps self.now.cap }
    {
        self.history.keeps_entries()
    }

    /// The history so far, of a desk that keeps all entries.
    pub fn history(&self) -> &History
        requires kept { keeps self.now.cap ≡ true }
        ensures entries { result.now.entries ≡ self.now.entries }
        ensures cap { result.now.cap ≡ self.now.cap }
    {
        self.history.history()
    }
}
