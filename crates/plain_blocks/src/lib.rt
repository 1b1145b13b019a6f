//! The programs of jobs on native blocks and datasets: which operation of the device comes next, and what the job ends
//! with.
//!
//! It promises that an operation is tried as often as configured, and that a program ends with the machine's result. The
//! device, the contents and the history are left to the crates above.
#![tactic(auto)]

mod program;

pub use program::PlainProgram;
