//! The recorder of a history: it keeps the entries that are added, or, where there may be 2^32 - 1 of them, their number and
//! the last one.
//!
//! It promises that each entry is counted, and that the last one is what was added last; what is kept of the others is
//! there to be read, and what isn't is there for proofs alone. Contents are lent to it, and it copies only those that it
//! keeps. What the entries say is left to who adds them.
#![tactic(auto)]

mod buffer;
mod event;
mod found_marks;
mod latest;
mod recorder;
mod request;
mod rooms;
mod told;
mod told_bytes;
mod told_marks;

pub use buffer::Buffer;
pub use event::{Event, MarkKind, TakenKind};
pub use found_marks::{FoundMarks, FoundPlace};
pub use latest::Last;
pub use recorder::{ENDLESS, Recorder};
pub use request::{LentRequest, RequestKind};
