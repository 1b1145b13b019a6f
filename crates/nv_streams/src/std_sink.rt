// A sink over a writer of std.
ghost use Rattle.std.specs.Prelude.{◌≡◌, ℕ, None};
ghost use Rattle.nv_streams.specs.Sink.{Written};

use crate::write_out::write_out;
use crate::{Sink, SinkAnswer};
use std::io::Write;

/// A sink over a writer. It tells the bytes that its writer tells, so none of a file or a terminal, and no pieces. Each error
/// of the writer is a fault, but an interrupted call is made again; a write that takes none of a nonempty piece is a fault
/// too. It never flushes: its writer is to hold nothing back.
#[derive(Drop)]
pub struct StdSink<W: Write> {
    writer: W,
    faults: u64,
}

impl<W: Write> StdSink<W> {
    /// A sink over this writer, with no fault yet.
    pub fn make(writer: W) -> StdSink<W>
        ensures written { ⟦<StdSink<W> as Sink>⟧.written result ≡ record { bytes = W.contents writer; pieces = None } }
        ensures faults { ⟦<StdSink<W> as Sink>⟧.faults result ≡ 0 }
    {
        StdSink { writer, faults: 0 }
    }
}

impl<W: Write> Sink for StdSink<W> {
    ghost written = { λ s. record { bytes = W.contents s.writer; pieces = None } };

    ghost faults = { λ s. s.faults };

    fn put(&mut self, piece: &[u8]) -> SinkAnswer {
        if write_out(&mut self.writer, piece) == piece.len() {
            return SinkAnswer::Done;
        }
        self.faults = self.faults.saturating_add(1);
        SinkAnswer::Failed
    }
}
