//! The stack of the NVRAM Manager, shared by threads: callers make requests under a lock and read statuses without it,
//! and one driver makes the turns, whose device works without it.
//!
//! It promises one history, in which each request has its reply and its place, that each status that is read is that of
//! an entry which every later list has, and that each half of the driver's turn is the stack's own, behind requests of
//! others. When a lock is got, which thread runs, and what callers ask for are left to the crates above.
#![tactic(auto)]

mod crossing;
mod driver;
mod known;
mod locked;
mod noted;
mod opening;
mod shared;
mod status_words;
mod telling;
mod terms;

pub use driver::device_turn;
pub use known::{Known, Naming};
pub use locked::{Locked, LockedOf};
pub use noted::NotedCopies;
pub use nvm_core::Driver;
pub use opening::{NotShared, ShareFault, make, share};
pub use shared::{Shared, SharedOf, StackPass, TellsGate, TellsTerms};
pub(crate) use status_words::{picked_last, told_last};
pub use status_words::{OFF_WORD, WORD_COUNT, told_by};
pub use telling::{Telling, Tells};
pub use terms::Terms;
