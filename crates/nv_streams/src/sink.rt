// Where bytes go.
ghost use Rattle.std.specs.Prelude.{ℕ};
ghost use Rattle.nv_streams.specs.Sink.{Written, IsPut, IsFailedPut};

/// The answer of a sink: the whole piece was written, or a fault of its own.
#[derive(Clone, Copy, PartialEq, Eq)]
pub enum SinkAnswer {
    Done,
    Failed,
}

/// A sink of bytes that counts its faults.
pub trait Sink {
    /// The bytes that were written, and in which pieces, where it tells them.
    ghost written: { Self → Written };

    /// The faults so far. A count at the end of its 64 bits stands still, and is read as risen.
    ghost faults: { Self → ℕ };

    /// Appends a piece. `Failed` appends a prefix of it, and comes only where the count of faults rose.
    fn put(&mut self, piece: &[u8]) -> SinkAnswer
        ensures done { IsPut result (written self.old) (faults self.old) piece.now (written self.new) (faults self.new) }
        ensures failed { IsFailedPut result (written self.old) (faults self.old) piece.now (written self.new) (faults self.new) };
}
