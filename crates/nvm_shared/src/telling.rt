// What only proofs know of a device.
ghost use Rattle.std.specs.Prelude.{◌≡◌, Bool};

use std::marker::Model;

/// Whether a device tells what it holds, as contracts see it.
pub trait Tells {
    ghost use Rattle.std.specs.Prelude.{Bool};

    ghost tells: { Self → Bool };
}

/// The same, as a value. It has no bytes, and whoever makes it picks in a proof what it says.
#[derive(Drop)]
pub struct Telling {
    pub ghost tells: { Bool },
}

impl Model for Telling {
    ghost use base.Fml.{ftrue};

    ghost also_owns = { λ _. ftrue };
}

impl Telling {
    pub(crate) fn picked() -> Telling
        ghost tells: { Bool }
        ensures { result.tells ≡ tells }
    {
        Telling {}
    }
}

impl Tells for Telling {
    ghost tells = { λ t. t.tells };
}
