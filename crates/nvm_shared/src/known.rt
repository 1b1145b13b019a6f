// What a caller knew, copied for the driver.
ghost use Rattle.std.specs.Prelude.{◌≡◌};
ghost use Rattle.turn_gate.specs.Pass.{IsPassOf, IsInside, IsWithin, copied, informed, knows};
ghost use Rattle.nvm_shared.specs.StatusWords.{gives};

use crate::locked::Locked;
use crate::shared::{Shared, StackPass};
use std::marker::{Brand, Model, PhantomData};

/// Names one lock, so that what is said of a copy of its passes is known by the copy's type.
pub trait Naming {
    ghost use Rattle.turn_gate.specs.Pass.{GateValue};

    ghost gate: { GateValue };
}

impl Naming for Brand {
    ghost use Rattle.nvm_shared.specs.Known.{no_gate};

    ghost gate = { no_gate };
}

/// What a pass of the lock that `J` names knew when it was copied: a caller hands it along with a store. It has no bytes, and may
/// be dropped. Contracts see what the pass knew.
#[derive(Drop)]
pub struct Known<J: Naming> {
    copy: turn_gate::Known<Locked>,
    of: PhantomData<J>,
}

impl<J: Naming> Model for Known<J> {
    ghost use Rattle.turn_gate.specs.declared.pass.View.{View};
    ghost use Rattle.turn_gate.specs.Pass.{IsKnownOf};
    ghost use Rattle.nvm_core.specs.block_machine.Words.{Entry};
    ghost use Rattle.nvm_shared.specs.declared.terms.Terms.{Terms};
    ghost use Rattle.nvm_shared.specs.Known.{view_of};

    ghost Value = { View Entry Terms };

    ghost view = { λ k. view_of k.copy.views };

    ghost invariant = { λ k. IsKnownOf J.gate k.copy (view_of k.copy.views) };
}

impl<J: Naming> Known<J> {
    /// Copies what a pass knows. The pass stays as it is. It waits for nobody.
    pub fn of(shared: &Shared, pass: &mut StackPass) -> Known<J>
        requires gate { shared.now.gate ≡ J.gate }
        requires own { IsPassOf shared.now.gate pass.old }
        ensures own { IsPassOf shared.now.gate pass.new }
        ensures same { pass.new.me ≡ pass.old.me }
        ensures known { result ≡ copied (knows pass.old) }
    {
        Known {
            copy: shared.gate.known(pass),
            of: PhantomData,
        }
    }

    /// In the lock, holds it beside the list as the pass has seen it: the list begins with all that was seen when it was copied, and
    /// agrees with all that was told then.
    pub fn compare(&mut self, shared: &Shared, pass: &mut StackPass)
        requires gate { shared.now.gate ≡ J.gate }
        requires own { IsPassOf shared.now.gate pass.old }
        requires inside { IsInside pass.old }
        ensures own { IsPassOf shared.now.gate pass.new }
        ensures inside { IsInside pass.new }
        ensures same { self.new ≡ self.old }
        ensures informed { knows pass.new ≡ informed (knows pass.old) self.old }
        ensures within { IsWithin gives (knows pass.old).seen self.old }
    {
        shared.gate.compare(pass, &mut self.copy);
    }
}
