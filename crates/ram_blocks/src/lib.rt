//! RAM blocks: those that the manager keeps, and those of the application, which are reached by copies, each tried
//! several times.
//!
//! It promises that RAM holds what was put there last, that a copy is refused only where that is counted, and exactly where
//! one is to be, if the application tells that, and that a copy that is made is whole: one out is a store of the application with
//! its number, as new as it was asked for. When a copy is made, and what a refused one means, is left to the crates above.
#![tactic(auto)]

mod cases;
mod kept;
mod plain_block;
mod plain_place;
mod plain_sync;
mod sync_calls;
mod tries;

pub use cases::{asked_refusals, copies_to_refuse};
pub use kept::{RamBlock, RamBlocks, RamFlags};
pub use plain_sync::PlainSync;
pub use sync_calls::{Copied, SyncCalls};
pub use tries::{Tried, copy_in, copy_out};
