//! What a seat at the table knows.
use std::collections::LinkedList;

/// A store, whole, and what was handed along with it. No value of it is made: it exists in proofs alone.
pub struct Store<N> {
    pub content: LinkedList<u8>,
    pub note: Option<N>,
}

/// What the owner's or the taker's seat knows. No value of it is made: it exists in proofs alone.
pub struct View<N> {
    pub size: u64,
    pub owns: bool,
    pub takes: bool,
    pub owner_out: bool,
    pub taker_out: bool,
    pub owner_slot: u64,
    pub taker_slot: u64,
    pub stores: LinkedList<Store<N>>,
    pub got: LinkedList<(u64, Store<N>)>,
    pub taken: u64,
    pub shown: u64,
    pub looks: u64,
    pub all_shown: LinkedList<u64>,
}
