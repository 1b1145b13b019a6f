//! The block side's half of the promise of a run: what a history keeps over any memory device, in the words of the
//! block machine and of the device alone.
//!
//! It has definitions with their cases, and no machinery: `KeepsOver` is that half, with `AreOfJobs` and `AreStartsTold` on the
//! device's operations and start-ups beside it; `Moves` and `Work` are the words for what turns do one by one, and for the
//! operations that their tries take. That the stack keeps it is left to
//! `nvm_core`, and what a device's words mean for the bytes of a flash to `promise_device`.
#![tactic(auto)]

mod cases;

pub use cases::{
    counts_that_may_be_found, counts_that_may_not_be_found, failures_that_are_not_paid,
    failures_that_are_paid, operations_of_jobs, operations_of_no_job, start_ups_that_are_not_told,
    start_ups_that_are_told,
};
