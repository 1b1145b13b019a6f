//! The jobs that are pending: those that wait, by their block and in the two queues, and the one in hand.
//!
//! It promises that they are the machine's, through each acceptance, Pick, interruption, Wrote and end, and that only
//! making them takes memory. Which of these may come, the blocks' states and the history are left to the crates above.
#![tactic(auto)]

mod interrupt;
mod job;
mod pending;
mod request;
mod room;
mod slots;
mod take;
mod unpicked;
mod waiting;
mod written;

pub use job::Job;
pub use pending::PendingJobs;
pub use request::{asked_block, job_kind, names_ram};
pub use take::{Staged, Take};
