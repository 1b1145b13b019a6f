// What is kept of each number.
ghost use Rattle.std.specs.Prelude.{◌≡◌, ◌<◌, ℕ, IfOk, length, replicate, slice_set, slice_index_or};
ghost use Rattle.ea_told.specs.States.{no_state};
ghost use Rattle.ea_told.specs.Device.{state_at};

use ea_image::SlotMemory;
use ea_told::SlotState;
use std::alloc::{AllocError, Global};
use std::marker::Model;

/// The states of all numbers, in their order. Contracts see the list.
#[derive(Drop)]
pub(crate) struct States {
    items: Vec<SlotState>,
}

impl Model for States {
    ghost use Rattle.std.specs.Prelude.{List};
    ghost use Rattle.ea_told.specs.declared.state.SlotState.{SlotState};

    ghost Value = { List SlotState };

    ghost view = { λ s. s.items.items };
}

impl States {
    /// Of so many numbers that were never written.
    pub fn make(alloc: Global, count: u32) -> Result<States, AllocError>
        ensures { IfOk result (λ s. s ≡ replicate count no_state) }
    {
        let none = SlotState {
            memory: SlotMemory::new(),
            worn: None,
        };
        Ok(States {
            items: vec![in alloc; none; count as usize]?,
        })
    }

    /// That of the number at a place.
    pub fn at(&self, place: u32) -> SlotState
        requires { place < length self.now }
        ensures { result ≡ state_at self.now place }
    {
        self.items[place as usize]
    }

    /// Sets what is kept of the slots at a place.
    pub fn set(&mut self, place: u32, state: SlotState)
        requires { place < length self.old }
        ensures { self.new ≡ slice_set self.old place state }
    {
        self.items[place as usize] = state;
    }
}
