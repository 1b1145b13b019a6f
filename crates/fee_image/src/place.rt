// Where the record of an instance stands.

/// What a bank holds of an instance: a content whose record's header is at this page of the bank, or the mark of an
/// invalidated or an erased instance, each with the count of its record; or no record.
#[derive(Clone, Copy, PartialEq, Eq)]
pub enum Place {
    Content { at: u32, count: u32 },
    Invalid { count: u32 },
    Erased { count: u32 },
    Unwritten,
}
