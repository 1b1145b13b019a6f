// Memory for the marks of a start-up.
ghost use Rattle.std.specs.Prelude.{◌≡◌, ◌≤◌, ◌<◌, ◌+◌, ◌-◌, ◌*◌, ◌++◌, ◌∷◌, [], IfOk};
ghost use Rattle.nv_base.specs.Marks.{IsStored, next_or};

use crate::{Instance, Mark, Marks};
use std::alloc::{AllocError, Global};
use std::marker::Model;

/// Marks in memory that was taken beforehand, so that each can be added without taking any. Contracts see the marks
/// so far, and how many more have room.
#[derive(Drop)]
pub struct MarksRoom {
    items: Vec<(Instance, Mark)>,
}

impl Model for MarksRoom {
    ghost use Rattle.std.specs.Prelude.{length, ◌-◌, vec_capacity};
    ghost use Rattle.nv_base.specs.Marks.{AreMarks, MarksAndRoom};

    ghost Value = { MarksAndRoom };

    ghost view = { λ m. record { marks = m.items.items; room = vec_capacity m.items - length m.items.items } };

    ghost invariant = { λ m. AreMarks 0 m.items.items };
}

impl MarksRoom {
    /// Takes the memory of `count` marks.
    pub fn make(alloc: Global, count: u32) -> Result<MarksRoom, AllocError>
        ensures empty { IfOk result (λ m. m.marks ≡ []) }
        ensures room { IfOk result (λ m. count ≤ m.room) }
    {
        Ok(MarksRoom {
            items: Vec::with_capacity(alloc, count as usize)?,
        })
    }

    /// Adds the mark of an instance above all others.
    pub fn add(&mut self, instance: Instance, mark: Mark)
        requires room { 0 < self.old.room }
        requires block { instance.block ≤ 1023 }
        requires index { instance.index ≤ 63 }
        requires above { next_or 0 self.old.marks ≤ instance.block * 64 + instance.index }
        requires stored { IsStored mark }
        ensures { self.new ≡ record { marks = self.old.marks ++ (instance, mark) ∷ []; room = self.old.room - 1 } }
    {
        self.items.push_reserved((instance, mark));
    }

    /// The marks as a list.
    pub fn into_marks(self) -> Marks
        ensures { result ≡ self.marks }
    {
        Marks::of(self.items)
    }
}
