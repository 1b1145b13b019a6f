// Bytes, for proofs alone.
ghost use Rattle.std.specs.Prelude.{◌≡◌, ℕ, List, replicate};

use std::marker::Model;

/// Bytes that stand for proofs alone: none of them is kept. Contracts read them as `items`.
#[derive(Drop)]
pub struct ToldBytes {
    pub ghost items: { List ℕ },
}

impl Model for ToldBytes {
    ghost use base.Fml.{ftrue};

    ghost also_owns = { λ _. ftrue };
}

// They own nothing.
unsafe impl Send for ToldBytes {}

impl ToldBytes {
    /// So many zeros.
    pub fn zeros(count: usize) -> ToldBytes
        ensures { result.items ≡ replicate count 0 }
    {
        zeros_told(count)
    }

    /// These bytes.
    pub fn of(bytes: &[u8]) -> ToldBytes
        ensures { result.items ≡ bytes.now }
    {
        bytes_told(bytes)
    }

    // The bytes that a proof picks.
    fn picked() -> ToldBytes
        ghost items: { List ℕ }
        ensures { result.items ≡ items }
    {
        ToldBytes {}
    }
}

fn zeros_told(count: usize) -> ToldBytes
    ghost items: { List ℕ }
    requires { items ≡ replicate count 0 }
    ensures { result.items ≡ replicate count 0 }
{
    ToldBytes::picked()
}

fn bytes_told(bytes: &[u8]) -> ToldBytes
    ghost items: { List ℕ }
    requires { items ≡ bytes.now }
    ensures { result.items ≡ bytes.now }
{
    ToldBytes::picked()
}
