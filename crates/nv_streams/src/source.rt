// Where bytes come from.
ghost use Rattle.std.specs.Prelude.{ℕ, List, Option};
ghost use Rattle.nv_streams.specs.Source.{IsGiven, IsFailedTake};
ghost use Rattle.nv_streams.specs.declared.source.SourceAnswer.{SourceAnswer};

/// The answer of a source: so many bytes, 0 at the end, or a fault of its own.
#[derive(Clone, Copy, PartialEq, Eq)]
pub enum SourceAnswer {
    Got(usize),
    Failed,
}

/// A source of bytes that counts its faults.
pub trait Source {
    /// The bytes that are left, where it tells them.
    ghost left: { Self → Option (List ℕ) };

    /// The faults so far. A count at the end of its 64 bits stands still, and is read as risen.
    ghost faults: { Self → ℕ };

    /// Takes the next bytes into the front of a piece; what stands behind them is left open. `Got(0)` for a
    /// nonempty piece is the end. `Failed` takes nothing, and comes only where the count of faults rose.
    fn take(&mut self, into: &mut [u8]) -> SourceAnswer
        ensures got { IsGiven result (left self.old) (faults self.old) into.new (left self.new) (faults self.new) }
        ensures failed { IsFailedTake result (left self.old) (faults self.old) (left self.new) (faults self.new) };
}
