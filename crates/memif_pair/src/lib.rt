//! Two memory devices of one part each, told as one device of two parts: its numbers, its clock by the operations of both,
//! and what the calls of each are for it.
//!
//! From the contract of any device alone follows that a call of one of the two is a call of a device of two parts. `Both` is that
//! device: a struct around these calls. PAIR.md has the picture.
#![tactic(auto)]

mod both;
mod calls;
mod queries;
mod turns;

pub use both::Both;
pub use calls::{
    arm, cancel, start, start_erase, start_invalidate, start_read, start_write, status,
};
pub use memif;
pub use nv_base;
pub use queries::{faults, left, mark_kind, most, ops, result, take_data};
pub use turns::{first_turns, second_turns, turn};
