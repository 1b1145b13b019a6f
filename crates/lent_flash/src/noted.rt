// A changing operation of a flash in memory that is lent, as contracts see it.
ghost use Rattle.std.specs.Prelude.{◌≡◌};
ghost use Rattle.lent_flash.specs.Flash.{change_of};

use crate::lent_bytes::LentBytes;
use fls_model::Call;
use nv_base::{Geometry, Trace};
use std::marker::Model;

/// What was asked of a flash, with what its bytes were before. It takes the memory of a call.
#[derive(Drop)]
pub struct Noted {
    before: Trace<LentBytes>,
    geometry: Geometry,
    call: Call,
}

impl Model for Noted {
    ghost use Rattle.fls_model.specs.Told.{Change};
    ghost use Rattle.lent_flash.specs.Flash.{change_of};

    ghost Value = { Change };

    ghost view = { λ n. change_of n.before.items n.geometry n.call };
}

impl Noted {
    pub fn make(before: Trace<LentBytes>, geometry: Geometry, call: Call) -> Noted
        ensures { result ≡ change_of before.items geometry call }
    {
        Noted {
            before,
            geometry,
            call,
        }
    }
}
