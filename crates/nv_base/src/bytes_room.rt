// Memory for bytes that come later.
ghost use Rattle.std.specs.Prelude.{◌≡◌, ◌≤◌, length, IfOk};

use crate::Bytes;
use std::alloc::{AllocError, Global};
use std::marker::Model;

/// Memory that was taken beforehand for a list of bytes, so that the list can be made without taking any. Contracts
/// see how many bytes have room.
#[derive(Drop)]
pub struct BytesRoom {
    empty: Vec<u8>,
}

impl Model for BytesRoom {
    ghost use Rattle.std.specs.Prelude.{ℕ, ◌≡◌, [], vec_capacity};

    ghost Value = { ℕ };

    ghost view = { λ r. vec_capacity r.empty };

    ghost invariant = { λ r. r.empty.items ≡ [] };
}

impl BytesRoom {
    /// Takes the memory of `count` bytes.
    pub fn make(alloc: Global, count: usize) -> Result<BytesRoom, AllocError>
        ensures { IfOk result (λ r. count ≤ r) }
    {
        Ok(BytesRoom {
            empty: Vec::with_capacity(alloc, count)?,
        })
    }

    /// A list of these bytes in this memory.
    pub fn fill(self, from: &[u8]) -> Bytes
        requires { length from.now ≤ self }
        ensures { result ≡ from.now }
    {
        let mut items = self.empty;
        let _has_room = items.extend_from_slice(from);
        Bytes::from_vec(items)
    }
}
