// Why a text isn't read.
use std::alloc::AllocError;

/// Why a text isn't read: it is none of a history, nor of a configuration, or want of memory.
#[derive(Clone, Copy)]
pub enum Unread {
    NoHistory,
    Memory,
}

impl From<AllocError> for Unread {
    fn from(_error: AllocError) -> Unread {
        Unread::Memory
    }
}
