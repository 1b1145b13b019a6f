//! The desk of the NVRAM Manager: it takes requests, and keeps the one history of what became of them.
//!
//! It promises that each request gets the machine's reply and one entry, that a legal history stays legal by it, and that
//! what is kept beside the history stands for the machine's state behind it. Devices, flash and texts are left to other
//! crates, and so is when the manager goes on.
#![tactic(auto)]

mod all_blocks;
mod ask;
mod desk;
mod driver;
mod drop_jobs;
mod effect;
mod found;
mod in_hand;
mod incoming;
mod longest;
mod members;
mod memory;
mod next;
mod pick;
mod places;
mod refusals;
mod start;
mod tested;
mod told;

pub use ask::AskFault;
pub use desk::Desk;
pub use job_pending::{Job, Take, names_ram};
pub use longest::{greater, longest_content};
pub use nv_desk_state::{NextEntry, length};
pub use nv_recorder::{
    Buffer, ENDLESS, Event, FoundMarks, FoundPlace, Last, LentRequest, MarkKind, RequestKind,
    TakenKind,
};
pub use pick::lent_or;
