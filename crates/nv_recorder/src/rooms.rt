// Memory for the bytes of later entries.
ghost use Rattle.std.specs.Prelude.{◌≡◌, ◌≤◌, ◌<◌, ◌-◌, ◌+◌, length, IfOk, OnOk};

use nv_base::{Bytes, BytesRoom};
use std::alloc::{AllocError, Global};
use std::marker::Model;

/// Memory that was taken beforehand for lists of at most `longest` bytes. Contracts see how many lists have room.
#[derive(Drop)]
pub struct Rooms {
    free: Vec<BytesRoom>,
    longest: usize,
}

impl Model for Rooms {
    ghost use Rattle.std.specs.Prelude.{length, ◌≤◌};
    ghost use Rattle.std.specs.List.{All};
    ghost use Rattle.nv_recorder.specs.Rooms.{Roomy};

    ghost Value = { Roomy };

    ghost view = { λ r. record { count = length r.free.items; longest = r.longest } };

    ghost invariant = { λ r. All (λ x. r.longest ≤ x) r.free.items };
}

impl Rooms {
    pub fn new(alloc: Global, longest: usize) -> Rooms
        ensures { result ≡ record { count = 0; longest = longest } }
    {
        Rooms {
            free: Vec::new(alloc),
            longest,
        }
    }

    /// Takes one room more.
    fn grow(&mut self, alloc: Global) -> Result<(), AllocError>
        ensures longest { self.new.longest ≡ self.old.longest }
        ensures grows { self.old.count ≤ self.new.count }
        ensures ok { OnOk result (self.new.count ≡ self.old.count + 1) }
    {
        let room = BytesRoom::make(alloc, self.longest)?;
        self.free.push(room)?;
        Ok(())
    }

    /// Sees that so many lists have room. At Err there may be more rooms than before.
    pub fn provide(&mut self, alloc: Global, count: u32) -> Result<(), AllocError>
        ensures longest { self.new.longest ≡ self.old.longest }
        ensures grows { self.old.count ≤ self.new.count }
        ensures ok { OnOk result (count ≤ self.new.count) }
    {
        let so_far = self.free.len();
        for i in so_far..count as usize {
            self.grow(alloc)?;
        }
        Ok(())
    }

    /// A list of these bytes, in one of the rooms.
    pub fn fill(&mut self, from: &[u8]) -> Bytes
        requires some { 0 < self.old.count }
        requires fits { length from.now ≤ self.old.longest }
        ensures bytes { result ≡ from.now }
        ensures rooms { self.new ≡ record self.old { count = self.old.count - 1 } }
    {
        let room = self.free.pop().unwrap();
        room.fill(from)
    }
}
