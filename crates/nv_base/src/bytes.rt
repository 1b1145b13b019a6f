// A list of bytes.
ghost use Rattle.std.specs.Prelude.{◌≡◌, length, IfOk, nat_eq, replicate};
ghost use Rattle.std.specs.Cmp.Lexicographic.{pointwise, nat_list_eq_equiv};
ghost use Rattle.std.specs.Cmp.{partial_equiv_from_equiv};

use std::alloc::{AllocError, Global};
use std::marker::Model;

/// A list of bytes that owns them. Contracts see the list.
#[derive(Clone, Drop)]
pub struct Bytes {
    items: Vec<u8>,
}

impl Model for Bytes {
    ghost use Rattle.std.specs.Prelude.{ℕ, List};

    ghost Value = { List ℕ };

    ghost view = { λ b. b.items.items };
}

impl PartialEq for Bytes {
    ghost eq = { pointwise nat_eq };

    ghost laws = { partial_equiv_from_equiv nat_list_eq_equiv };

    fn eq(&self, other: &Bytes) -> bool {
        self.items.as_slice() == other.items.as_slice()
    }
}

impl Eq for Bytes {
    ghost laws = { nat_list_eq_equiv };
}

impl Bytes {
    /// So many zeros.
    pub fn zeros(alloc: Global, count: usize) -> Result<Bytes, AllocError>
        ensures { IfOk result (λ b. b ≡ replicate count 0) }
    {
        Ok(Bytes {
            items: vec![in alloc; 0; count]?,
        })
    }

    /// Lends the bytes.
    pub fn as_slice(&self) -> &[u8]
        ensures { result.now ≡ self.now }
    {
        &self.items
    }

    /// Takes over the bytes of a vector.
    pub fn from_vec(items: Vec<u8>) -> Bytes
        ensures { result ≡ items.items }
    {
        Bytes { items }
    }

    /// How many bytes it holds.
    pub fn len(&self) -> usize
        ensures { result ≡ length self.now }
    {
        self.items.len()
    }

    /// Puts these bytes in place of the ones that it holds, as many. It takes no memory.
    pub fn copy_from_slice(&mut self, from: &[u8])
        requires { length from.now ≡ length self.old }
        ensures { self.new ≡ from.now }
    {
        self.items.copy_from_slice(from);
    }
}

/// A list of these bytes.
pub fn bytes_of(alloc: Global, from: &[u8]) -> Result<Bytes, AllocError>
    ensures { IfOk result (λ b. b ≡ from.now) }
{
    Ok(Bytes {
        items: from.to_vec(alloc)?,
    })
}
