// A device over paired slots of a small flash, with one number.
ghost use Rattle.std.specs.Prelude.{◌≡◌, ◌∷◌, [], IfOk};
ghost use Rattle.memif_fee_ea.specs.ea_slots.ea_told.Making.{HasSlots};

use crate::steps::{NUMBER, Step, Steps};
use crate::trial::Trial;
use memif_fee_ea::ea_slots::{Ea, Origin};
use memif_fee_ea::{Flash, Geometry, Lengths, lengths_of};
use std::alloc::{AllocError, Global};
use std::marker::Brand;

/// Four sectors, as a number's two slots need.
pub(crate) const SMALL: Geometry = Geometry {
    page: 16,
    sector: 64,
    sectors: 4,
};

/// The number with the length of its content.
pub(crate) fn one_number(alloc: Global) -> Result<Lengths, AllocError>
    ensures { IfOk result (λ l. l ≡ (NUMBER, 4) ∷ []) }
{
    lengths_of(alloc, &[(NUMBER, 4)])
}

// Makes the device over a flash, and a trial with it; gives the flash back where that comes to what is expected.
fn try_made<F: Flash + Drop, O: Origin, T: Trial>(
    alloc: Global,
    flash: F,
    numbers: &Lengths,
    trial: &T,
) -> Option<F>
    requires slots { HasSlots O.making }
    requires making { O.making ≡ record { geometry = SMALL; numbers = numbers.now } }
    requires entry { O.entry ≡ F.told flash }
{
    let device = Ea::<F, O>::make(alloc, flash, SMALL, numbers).ok()?;
    let device = trial.try_with(alloc, device)?;
    Some(device.into_flash())
}

/// Makes a trial with a device over a flash. None where it doesn't come to what is expected, or for want of memory.
pub(crate) fn try_over<F: Flash + Drop, T: Trial>(alloc: Global, flash: F, trial: &T) -> Option<F> {
    let numbers = one_number(alloc).ok()?;
    try_made::<F, Brand, T>(alloc, flash, &numbers, trial)
}

/// The same with these steps.
pub(crate) fn makes_over<F: Flash + Drop>(alloc: Global, flash: F, steps: &[Step]) -> Option<F> {
    try_over(alloc, flash, &Steps { steps })
}
