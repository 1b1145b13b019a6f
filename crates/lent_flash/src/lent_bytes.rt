// The bytes that are lent, in their places.
ghost use Rattle.std.specs.Prelude.{◌≡◌, ◌≤◌, ◌+◌, Some, IsSome, length};
ghost use Rattle.fls_model.specs.Bytes.{piece, AreBytes};
ghost use Rattle.fls_model.specs.Op.{after_op, MayLeave, Erase};
ghost use Rattle.fls_model.specs.Step.{programs};

use crate::lent::Lent;
use crate::places::{below_256, copy_out, erase_in, program_in};
use core::slots::Slots;
use std::marker::Model;

/// The memory that C lent, as places that are all full. Contracts see its bytes.
pub struct LentBytes {
    places: Slots<u8>,
}

impl Model for LentBytes {
    ghost use Rattle.std.specs.Prelude.{ℕ, List};
    ghost use Rattle.std.specs.Mem.Slots.{slots_items, IsFull};

    ghost Value = { List ℕ };

    ghost view = { λ b. slots_items b.places };

    ghost invariant = { λ b. IsFull b.places };
}

impl Drop for LentBytes {
    fn drop(self) {
        let LentBytes { places } = self;
        let _lent = Lent::of_slots(places);
    }
}

impl LentBytes {
    /// The bytes of memory that is lent.
    pub fn of(lent: Lent) -> LentBytes
        requires { IsSome lent.bytes }
        ensures bytes { lent.bytes ≡ Some result }
        ensures below { AreBytes result }
    {
        let places = lent.into_slots();
        below_256(&places);
        LentBytes { places }
    }

    /// The memory again.
    pub fn into_lent(self) -> Lent
        ensures { result.bytes ≡ Some self }
    {
        let LentBytes { places } = self;
        Lent::of_slots(places)
    }

    /// How many there are.
    pub fn len(&self) -> usize
        ensures { result ≡ length self.now }
    {
        self.places.len()
    }

    /// Copies a piece of them.
    pub fn copy_out(&self, at: usize, into: &mut [u8])
        requires { at + length into.old ≤ length self.now }
        ensures { into.new ≡ piece at (length into.old) self.now }
    {
        copy_out(&self.places, at, into);
    }

    /// With the bits of a page cleared that are zero in `page`.
    pub fn programmed(self, at: usize, page: &[u8]) -> LentBytes
        requires within { at + length page.now ≤ length self }
        requires small { length page.now ≤ 256 }
        ensures done { result ≡ after_op (programs at page.now) self }
        ensures within { MayLeave (programs at page.now) self result }
        ensures size { length result ≡ length self }
        ensures bytes { AreBytes result }
    {
        let LentBytes { places } = self;
        LentBytes {
            places: program_in(places, at, page),
        }
    }

    /// With all bits of a range set.
    pub fn erased(self, at: usize, count: usize) -> LentBytes
        requires within { at + count ≤ length self }
        ensures done { result ≡ after_op (Erase at count) self }
        ensures within { MayLeave (Erase at count) self result }
        ensures size { length result ≡ length self }
        ensures bytes { AreBytes result }
    {
        let LentBytes { places } = self;
        LentBytes {
            places: erase_in(places, at, count),
        }
    }
}
