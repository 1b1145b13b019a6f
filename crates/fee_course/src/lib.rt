//! The course of a switch of banks: which number is copied next, what follows each operation, and how many turns are
//! left.
//!
//! It promises that the first number is chosen that has a record and no copy, that each operation before the gate that
//! is done leaves fewer turns, and that an urgent append adds no more than the turns of its own copy. It knows no
//! flash: the operations, and the logs whose places and flags it reads, are left to the crates above.
#![tactic(auto)]

mod copies;
mod course;

pub use copies::{Source, copies_left, copies_most, next_copy};
pub use course::{Copying, Course, most_turns};
