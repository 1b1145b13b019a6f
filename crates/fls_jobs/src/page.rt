// Bytes of one page.
ghost use Rattle.std.specs.Prelude.{◌≡◌, ◌≤◌, length};

use std::marker::Model;

/// At most 256 bytes in memory of its own, the greatest page. Contracts see the list.
#[derive(Drop)]
pub struct Page {
    bytes: [u8; 256],
    count: usize,
}

impl Model for Page {
    ghost use Rattle.std.specs.Prelude.{ℕ, List, ◌≤◌, take};

    ghost Value = { List ℕ };

    ghost view = { λ p. take p.count p.bytes };

    ghost invariant = { λ p. p.count ≤ 256 };
}

impl Page {
    /// A copy of these bytes.
    pub fn of(content: &[u8]) -> Page
        requires { length content.now ≤ 256 }
        ensures { result ≡ content.now }
    {
        let mut bytes = [0; 256];
        let count = content.len();
        bytes[..count].copy_from_slice(content);
        Page { bytes, count }
    }

    /// Lends the bytes.
    pub fn as_slice(&self) -> &[u8]
        ensures bytes { result.now ≡ self.now }
        ensures few { length self.now ≤ 256 }
    {
        &self.bytes[..self.count]
    }
}
