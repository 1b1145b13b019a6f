// A sink in memory.
ghost use Rattle.std.specs.Prelude.{◌≡◌, false, ℕ, [], IfOk};
ghost use Rattle.std.specs.List.{concat};
ghost use Rattle.nv_streams.specs.Sink.{Written, IsPut, IsFailedPut};
ghost use Rattle.nv_streams.specs.MemorySink.{FailsAsListed, told_pieces};

use crate::{Sink, SinkAnswer};
use nv_base::Trace;
use std::alloc::{AllocError, Global};
use std::marker::Model;

/// A sink in memory, for tests. Its listed calls fail and keep nothing, as does a call that finds no memory; every
/// other call keeps its whole piece. Contracts see the pieces written, the listed calls, the calls so far, the faults, and
/// whether the last call found no memory.
#[derive(Drop)]
pub struct MemSink {
    bytes: Vec<u8>,
    lengths: Trace<usize>,
    failing: Vec<u64>,
    calls: u64,
    faults: u64,
    starved: bool,
}

impl Model for MemSink {
    ghost use Rattle.std.specs.Prelude.{◌≡◌, length};
    ghost use Rattle.std.specs.List.{sum};
    ghost use Rattle.nv_streams.specs.MemorySink.{SinkInMemory, cut_by};

    ghost Value = { SinkInMemory };

    ghost view = { λ s. record { pieces = cut_by s.lengths.items s.bytes.items; failing = s.failing.items; calls = s.calls; faults = s.faults; starved = s.starved } };

    ghost invariant = { λ s. sum s.lengths.items ≡ length s.bytes.items };
}

/// An empty sink whose calls with the listed numbers, from 1, fail.
pub fn mem_sink(alloc: Global, failing: &[u64]) -> Result<MemSink, AllocError>
    ensures { IfOk result (λ s. s ≡ record { pieces = []; failing = failing.now; calls = 0; faults = 0; starved = false }) }
{
    Ok(MemSink {
        bytes: Vec::new(alloc),
        lengths: Trace::new(),
        failing: failing.to_vec(alloc)?,
        calls: 0,
        faults: 0,
        starved: false,
    })
}

impl MemSink {
    /// Lends what was written.
    pub fn bytes(&self) -> &[u8]
        ensures { result.now ≡ concat self.now.pieces }
    {
        &self.bytes
    }
}

impl Sink for MemSink {
    ghost written = { λ s. told_pieces s.pieces };

    ghost faults = { λ s. s.faults };

    fn put(&mut self, piece: &[u8]) -> SinkAnswer
        ensures done { IsPut result (told_pieces self.old.pieces) self.old.faults piece.now (told_pieces self.new.pieces) self.new.faults }
        ensures failed { IsFailedPut result (told_pieces self.old.pieces) self.old.faults piece.now (told_pieces self.new.pieces) self.new.faults }
        ensures listed { FailsAsListed result self.old self.new }
    {
        self.calls = self.calls.saturating_add(1);
        self.starved = false;
        if self.failing.contains(&self.calls) {
            self.faults = self.faults.saturating_add(1);
            return SinkAnswer::Failed;
        }
        match self.bytes.extend_from_slice(piece) {
            Ok(()) => {
                self.lengths = self.lengths.with(&piece.len());
                SinkAnswer::Done
            }
            Err(_) => {
                self.starved = true;
                self.faults = self.faults.saturating_add(1);
                SinkAnswer::Failed
            }
        }
    }
}
