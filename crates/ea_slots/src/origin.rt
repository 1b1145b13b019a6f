// What a device was made of.
ghost use Rattle.fls_model.specs.Told.{Told};
ghost use Rattle.ea_told.specs.Making.{Making};
ghost use Rattle.ea_slots.specs.Origin.{no_making, no_flash};

use std::marker::Brand;

/// What a device is made for, and what its flash told before: seen by contracts alone. It belongs to the device's type, so
/// that who has the device knows it, whatever calls come between. The maker picks it, for `Brand`.
pub trait Origin {
    ghost making: { Making };

    ghost entry: { Told };
}

impl Origin for Brand {
    ghost making = { no_making };

    ghost entry = { no_flash };
}
