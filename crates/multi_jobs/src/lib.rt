//! The members of a request on all blocks, one after the other, and the result of block id 0.
//!
//! It promises that members come in the machine's order, that each is picked or posted without a Pick as the machine says,
//! and that the sweep ends with the machine's result. What a member's job does is left to the crates above.
#![tactic(auto)]

mod members;
mod sweep;

pub use sweep::{MemberFacts, Sweep, SweepStep};
