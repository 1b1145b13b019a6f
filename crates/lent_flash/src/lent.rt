// Memory that C lends, from the call that it is handed to until the call that gives it back.
ghost use Rattle.std.specs.Prelude.{◌≡◌, ℕ, List, Option, Some, IsSome};
ghost use Rattle.std.specs.Coded.{coded_list, coded_option, coded_ℕ};
ghost use Rattle.std.specs.Mem.Slots.{slots_items, IsFull};
ghost use Rattle.lent_flash.specs.Lent.{lent_owns};

use core::slots::Slots;
use std::marker::Model;

/// So many bytes at an address, which C doesn't touch while they are lent; or nothing, which is how C begins one.
#[repr(C)]
#[derive(Drop)]
pub struct Lent {
    at: *mut u8,
    length: usize,
    pub ghost bytes: { Option (List ℕ) } by { coded_option (coded_list coded_ℕ) },
}

impl Model for Lent {
    ghost also_owns = { λ l. lent_owns l.at l.length l.bytes };
}

impl Lent {
    /// The places of the bytes.
    pub fn into_slots(self) -> Slots<u8>
        requires { IsSome self.bytes }
        ensures items { self.bytes ≡ Some (slots_items result) }
        ensures full { IsFull result }
    {
        let Lent { at, length } = self;
        unsafe { Slots::from_raw_parts(at, length) }
    }

    /// Full places as memory that is lent.
    pub fn of_slots(slots: Slots<u8>) -> Lent
        requires { IsFull slots }
        ensures { result.bytes ≡ Some (slots_items slots) }
    {
        unsafe {
            let (at, length) = slots.into_raw_parts();
            Lent { at, length }
        }
    }
}
