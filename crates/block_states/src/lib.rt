//! The state of each block: its status, data index, lock and protection, beside its RAM, which `ram_blocks` keeps.
//!
//! It promises that what is kept are the blocks of the machine, by id, and that each call changes them as the machine's
//! equation of a request, a Pick, a Post or a start-up says. When one is due, and what it gives, is left to the crate above.
#![tactic(auto)]

mod facts;
mod start;
mod states;

pub use facts::BlockFacts;
pub use states::BlockStates;
