//! A mirror of a RAM block: one owner stores whole contents, one taker takes the newest, and neither waits for the
//! other.
//!
//! It promises that each content that was taken is one store, whole, with its number and what was handed along, that the numbers of one taker
//! never fall, and that after `make` nothing takes memory. When a store is taken, and by which thread, is left to the
//! crates above.
#![tactic(auto)]

mod buffer;
mod crossing;
mod ends;
mod exchange;
mod mirror;
mod newest;
mod view;

pub use ends::{Owner, Taker};
pub use mirror::{Mirror, make};
