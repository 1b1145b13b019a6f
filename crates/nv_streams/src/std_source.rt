// A source over a reader of std.
ghost use Rattle.std.specs.Prelude.{◌≡◌, ℕ, List, Option};

use crate::{Source, SourceAnswer};
use std::io::{ErrorKind, Read};

/// A source over a reader. It tells the bytes that its reader tells, so none of a file or a terminal. Each error of the
/// reader is a fault, but an interrupted call is made again.
#[derive(Drop)]
pub struct StdSource<R: Read> {
    reader: R,
    faults: u64,
}

impl<R: Read> StdSource<R> {
    /// A source over this reader, with no fault yet.
    pub fn make(reader: R) -> StdSource<R>
        ensures left { ⟦<StdSource<R> as Source>⟧.left result ≡ R.remaining reader }
        ensures faults { ⟦<StdSource<R> as Source>⟧.faults result ≡ 0 }
    {
        StdSource { reader, faults: 0 }
    }
}

impl<R: Read> Source for StdSource<R> {
    ghost left = { λ s. R.remaining s.reader };

    ghost faults = { λ s. s.faults };

    fn take(&mut self, into: &mut [u8]) -> SourceAnswer {
        for _ in 0..u64::MAX {
            match self.reader.read(into) {
                Ok(count) => return SourceAnswer::Got(count),
                Err(error) if error.kind() == ErrorKind::Interrupted => {}
                Err(_) => break,
            }
        }
        self.faults = self.faults.saturating_add(1);
        SourceAnswer::Failed
    }
}
