// The room of a history.

/// The most entries of a history.
pub const CAP: u32 = 100_000;
