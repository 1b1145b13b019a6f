//! The buffers that the ends trade.
use std::alloc::Global;

/// A content of the mirror's length, and what is handed along with it.
#[derive(Drop)]
pub struct Buffer<N> {
    pub(crate) bytes: Vec<u8>,
    pub(crate) note: Option<N>,
}

impl<N> Buffer<N> {
    // Of no bytes, for a slot whose buffer is with an end.
    pub(crate) fn none(alloc: Global) -> Buffer<N> {
        Buffer {
            bytes: Vec::new(alloc),
            note: None,
        }
    }
}
