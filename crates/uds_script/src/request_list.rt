// The requests of a UDS gateway in order.
ghost use Rattle.std.specs.Prelude.{◌≡◌, ◌<◌, ◌++◌, ◌∷◌, [], length, OnOk, OnErr};
ghost use Rattle.uds_script.specs.Requests.{HaveBytes};

use nv_base::Bytes;
use std::alloc::{AllocError, Global};
use std::marker::Model;

/// Requests in order, fewer than 2^32, none of them empty. Contracts see the list of their bytes.
#[derive(Drop)]
pub struct RequestList {
    items: Vec<Bytes>,
}

impl Model for RequestList {
    ghost use Rattle.std.specs.Prelude.{List, ℕ, length, ◌<◌, ◌^◌};
    ghost use Rattle.uds_script.specs.Requests.{HaveBytes};

    ghost Value = { List (List ℕ) };

    ghost view = { λ l. l.items.items };

    ghost invariant = { λ l. (length l.items.items < 2 ^ 32) × HaveBytes l.items.items };
}

impl RequestList {
    /// No requests.
    pub fn new(alloc: Global) -> RequestList
        ensures { result ≡ [] }
    {
        RequestList {
            items: Vec::new(alloc),
        }
    }

    /// Lends the requests.
    pub fn as_slice(&self) -> &[Bytes]
        ensures requests { result.now ≡ self.now }
        ensures bytes { HaveBytes self.now }
    {
        &self.items
    }

    /// Adds a request at the end.
    pub fn add(&mut self, request: Bytes) -> Result<(), AllocError>
        requires room { length self.old < u32.MAX }
        requires some { 0 < length request }
        ensures ok { OnOk result (self.new ≡ self.old ++ request ∷ []) }
        ensures err { OnErr result (self.new ≡ self.old) }
    {
        self.items.push(request)?;
        Ok(())
    }
}
