//! The two queues of jobs that wait: the immediate and the standard one.
//!
//! It promises that the job that is handed out goes before all others in the machine's order, that a queue takes a job
//! exactly while it has room, and that only `make` takes memory. Which jobs are added is left to the crate above.
#![tactic(auto)]

mod queue;
mod queues;
mod ring;
mod waiting;

pub use queues::Queues;
pub use waiting::Waiting;
