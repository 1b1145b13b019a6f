// A value on the heap behind a pointer, which is null where there is none.
ghost use Rattle.std.specs.Prelude.{◌≡◌, Option, None, Some, IsSome};
ghost use Rattle.std.specs.Coded.{coded_option};
ghost use Rattle.nvm_c.specs.Room.{room_owns};

use std::alloc::Global;
use std::marker::Model;
use std::ptr::null_mut;

/// Null, or a value that stands in a block of the C library's heap.
#[derive(Drop)]
pub struct Room<T> {
    pub(crate) at: *mut T,
    pub ghost value: { Option T } by { coded_option T.code },
}

impl<T> Model for Room<T> {
    ghost also_owns = { λ r. room_owns T.row r.at r.value };
}

impl<T> Room<T> {
    /// Nothing.
    pub fn empty() -> Room<T>
        ensures { result.value ≡ None }
    {
        Room { at: null_mut() }
    }

    /// With what a box has.
    pub fn of(boxed: Box<T>) -> Room<T>
    where
        T: Drop,
        ensures { result.value ≡ Some boxed.value }
    {
        Room {
            at: Box::into_raw(boxed),
        }
    }

    /// What stands there, as a box again.
    pub fn into_box(self, alloc: Global) -> Box<T>
        requires { IsSome self.value }
        ensures { self.value ≡ Some result.value }
    {
        let Room { at } = self;
        unsafe { Box::from_raw(alloc, at) }
    }
}
