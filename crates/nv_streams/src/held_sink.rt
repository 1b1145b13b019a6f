// A sink that holds pieces back.
ghost use Rattle.std.specs.Prelude.{◌≡◌, []};
ghost use Rattle.nv_streams.specs.Sink.{Written, IsPut, IsFailedPut};
ghost use Rattle.nv_streams.specs.HeldSink.{told_held, IsFlushed, IsUnflushed, IsHeld, IsPassed, StaysWhole};

use crate::write_out::write_out;
use crate::{Sink, SinkAnswer};
use std::io::Write;
use std::marker::Model;

/// A sink over a writer that holds pieces back until its memory has no room for the next one, and then passes them on at once, each
/// of them whole. A piece that is longer than that memory goes on at once. It tells what was put: what its writer tells, with
/// what is held behind it. Who has put the last piece flushes it.
#[derive(Drop)]
pub struct HeldSink<W: Write> {
    writer: W,
    held: Vec<u8>,
    passed: usize,
    most: usize,
    faults: u64,
}

impl<W: Write> Model for HeldSink<W> {
    ghost use Rattle.std.specs.Prelude.{◌≤◌, drop, vec_len};
    ghost use Rattle.nv_streams.specs.HeldSink.{HeldBytes};

    ghost Value = { HeldBytes };

    ghost view = { λ s. record { writer = W.contents s.writer; held = drop s.passed s.held.items; faults = s.faults } };

    ghost invariant = { λ s. s.passed ≤ vec_len s.held };
}

impl<W: Write> HeldSink<W> {
    /// A sink over this writer that holds none so far, and as many bytes as this memory has room for. It takes no other.
    pub fn over(writer: W, memory: Vec<u8>) -> HeldSink<W>
        ensures { result ≡ record { writer = W.contents writer; held = []; faults = 0 } }
    {
        let mut held = memory;
        held.clear();
        let most = held.capacity();
        HeldSink {
            writer,
            held,
            passed: 0,
            most,
            faults: 0,
        }
    }

    /// Passes on what is held. `Failed` passes on a beginning of it, holds the rest, and comes only where the count of faults rose.
    pub fn flush(&mut self) -> SinkAnswer
        ensures done { IsFlushed result self.old self.new }
        ensures failed { IsUnflushed result self.old self.new }
    {
        let count = write_out(&mut self.writer, &self.held[self.passed..]);
        if count == self.held.len() - self.passed {
            self.held.clear();
            self.passed = 0;
            return SinkAnswer::Done;
        }
        self.passed += count;
        self.faults = self.faults.saturating_add(1);
        SinkAnswer::Failed
    }

    // Holds a piece behind the others, where there is room. False where there isn't; nothing changes then.
    fn hold(&mut self, piece: &[u8]) -> bool
        ensures { IsHeld result piece.now self.old self.new }
    {
        if piece.len() > self.most.saturating_sub(self.held.len()) {
            return false;
        }
        self.held.extend_from_slice(piece).is_ok()
    }

    // Passes on a piece, where none is held.
    fn pass(&mut self, piece: &[u8]) -> SinkAnswer
        requires { self.old.held ≡ [] }
        ensures { IsPassed result piece.now self.old self.new }
    {
        if write_out(&mut self.writer, piece) == piece.len() {
            return SinkAnswer::Done;
        }
        self.faults = self.faults.saturating_add(1);
        SinkAnswer::Failed
    }
}

impl<W: Write> Sink for HeldSink<W> {
    ghost written = { λ s. told_held s };

    ghost faults = { λ s. s.faults };

    fn put(&mut self, piece: &[u8]) -> SinkAnswer
        ensures done { IsPut result (told_held self.old) self.old.faults piece.now (told_held self.new) self.new.faults }
        ensures failed { IsFailedPut result (told_held self.old) self.old.faults piece.now (told_held self.new) self.new.faults }
        ensures whole { StaysWhole result piece.now self.old self.new }
    {
        if self.hold(piece) {
            return SinkAnswer::Done;
        }
        match self.flush() {
            SinkAnswer::Failed => SinkAnswer::Failed,
            SinkAnswer::Done => {
                if self.hold(piece) {
                    return SinkAnswer::Done;
                }
                self.pass(piece)
            }
        }
    }
}
