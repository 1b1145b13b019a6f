//! What a start-up finds: it starts a memory device up and reads each content that the device holds, by one read each.
//!
//! It promises that the marks that it finds are all that the device holds for certain, that no memory is taken while it
//! does so, and that a history with the Found of these marks keeps its half of the promise of a run. When a start-up
//! comes, and the history, are left to the stack.
#![tactic(auto)]

mod found;
mod place;
mod read;

pub use found::find;
pub use nv_recorder::FoundMarks;
