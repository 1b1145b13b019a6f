// The marks of instances.
ghost use Rattle.std.specs.Prelude.{◌≡◌, ◌≤◌, ◌+◌, ◌*◌, ◌++◌, ◌∷◌, [], length, Some, MatchOption, OnOk, OnErr, IfErr, slice_get};
ghost use Rattle.nv_base.specs.Marks.{AreMarks, IsStored, next_or};

use crate::{Instance, Mark};
use std::alloc::{AllocFailed, Global};
use std::marker::Model;

/// Marks of instances, ascending by device number, which bounds blocks to 1,023 and indices to 63. An instance that
/// doesn't stand here is erased. Contracts see the list.
#[derive(Drop)]
pub struct Marks {
    items: Vec<(Instance, Mark)>,
}

impl Model for Marks {
    ghost use Rattle.std.specs.Prelude.{List};
    ghost use Rattle.nv_base.specs.declared.mark.Mark.{Mark};
    ghost use Rattle.nv_base.specs.declared.instance.Instance.{Instance};
    ghost use Rattle.nv_base.specs.Marks.{AreMarks};

    ghost Value = { List (Instance × Mark) };

    ghost view = { λ m. m.items.items };

    ghost invariant = { λ m. AreMarks 0 m.items.items };
}

impl Marks {
    /// No marks.
    pub fn new(alloc: Global) -> Marks
        ensures { result ≡ [] }
    {
        Marks {
            items: Vec::new(alloc),
        }
    }

    /// Marks over this list.
    pub(crate) fn of(items: Vec<(Instance, Mark)>) -> Marks
        requires { AreMarks 0 items.items }
        ensures { result ≡ items.items }
    {
        Marks { items }
    }

    /// How many instances stand here.
    pub fn len(&self) -> u32
        ensures count { result ≡ length self.now }
        ensures bounds { AreMarks 0 self.now }
    {
        self.items.len() as u32
    }

    /// The instance and mark at a place, from 0. None exactly where the place isn't below `len`.
    pub fn get(&self, i: u32) -> Option<(Instance, &Mark)>
        ensures { MatchOption result (length self.now ≤ i) (λ r. slice_get self.now i ≡ Some (r.0, r.1.now)) }
    {
        match self.items.get(i as usize) {
            Some(item) => Some((item.0, &item.1)),
            None => None,
        }
    }

    /// Adds the mark of an instance above all others. At Err the mark is handed back.
    pub fn add(&mut self, instance: Instance, mark: Mark) -> Result<(), AllocFailed<Mark>>
        requires block { instance.block ≤ 1023 }
        requires index { instance.index ≤ 63 }
        requires above { next_or 0 self.old ≤ instance.block * 64 + instance.index }
        requires stored { IsStored mark }
        ensures ok { OnOk result (self.new ≡ self.old ++ (instance, mark) ∷ []) }
        ensures err { OnErr result (self.new ≡ self.old) }
        ensures handed_back { IfErr result (λ failed. failed.value ≡ mark) }
    {
        self.items
            .push((instance, mark))
            .map_err(|failed| AllocFailed {
                value: failed.value.1,
            })
    }
}
