// What a Pick takes for a job.
use block_machine::nv_base::Bytes;

/// A content with the number of its store, or 0 where it is of none.
#[derive(Drop)]
pub struct Staged {
    pub bytes: Bytes,
    pub store: u64,
}

/// What a Pick takes for a job of a content that is lent: nothing, as it isn't a write; the content that the job has
/// already; a copy of the one that is lent, of the store with this number, or of none (0); or no content, as each of `count`
/// copies was refused, or none was as new as the store `asked` for.
#[derive(Clone, Copy)]
pub enum Take {
    Nothing,
    Own,
    Copied { store: u64 },
    Refused { count: u8 },
    Stale { asked: u64, got: u64, count: u8 },
}
