// The steps of a script in order.
ghost use Rattle.std.specs.Prelude.{◌≡◌, ◌<◌, ◌≤◌, ◌^◌, ◌++◌, ◌∷◌, [], length, Some, MatchOption, OnOk, OnErr, slice_get};

use crate::{KeptStep, Step};
use std::alloc::{AllocError, Global};
use std::marker::Model;

/// Steps in order, fewer than 2^32, each kept in few bytes where those of its content are equal. Contracts see the list.
#[derive(Drop)]
pub struct StepList {
    items: Vec<KeptStep>,
}

impl Model for StepList {
    ghost use Rattle.std.specs.Prelude.{List, ◌<◌, ◌^◌, length};
    ghost use Rattle.nvm_script.specs.declared.step.Step.{Step};

    ghost Value = { List Step };

    ghost view = { λ l. l.items.items };

    ghost invariant = { λ l. length l.items.items < 2 ^ 32 };
}

impl StepList {
    /// No steps.
    pub fn new(alloc: Global) -> StepList
        ensures { result ≡ [] }
    {
        StepList {
            items: Vec::new(alloc),
        }
    }

    /// How many steps stand here.
    pub fn len(&self) -> u32
        ensures { result ≡ length self.now }
    {
        self.items.len() as u32
    }

    /// The step at a place, from 0. None exactly where the place isn't below `len`.
    pub fn get(&self, i: u32) -> Option<&KeptStep>
        ensures { MatchOption result (length self.now ≤ i) (λ s. slice_get self.now i ≡ Some s.now) }
    {
        self.items.get(i as usize)
    }

    /// Adds a step at the end.
    pub fn add(&mut self, step: Step) -> Result<(), AllocError>
        requires { length self.old < u32.MAX }
        ensures ok { OnOk result (self.new ≡ self.old ++ step ∷ []) }
        ensures err { OnErr result (self.new ≡ self.old) }
    {
        self.items.push(KeptStep::of(step))?;
        Ok(())
    }

    /// The steps themselves.
    pub fn into_steps(self) -> Vec<KeptStep>
        ensures steps { result.items ≡ self }
        ensures few { length self < 2 ^ 32 }
    {
        self.items
    }
}
