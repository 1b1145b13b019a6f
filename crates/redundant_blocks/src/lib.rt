//! The programs of jobs on redundant blocks: copy 0 first and then copy 1, and what the job ends with.
//!
//! It promises that an operation is tried as often as configured, that a read stops at copy 0 only behind a content or an
//! invalid one, and that a program ends with the machine's result. The device, the contents and the history are left to
//! the crates above.
#![tactic(auto)]

mod program;

pub use program::RedundantProgram;
