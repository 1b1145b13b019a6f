//! The numbers of turns of the stack: how many are left of what is in hand and open, and how soon a job ends.
//!
//! It promises that a turn lowers what is left or counts a fault, that a job in hand ends within what is left at its
//! Pick, an urgent write within its pages and four, and that a drain ends. Who makes the turns is left to the stack.
#![tactic(auto)]

mod cases;
mod counted;
mod finish;
mod job_steps;

pub use cases::{left_cases, urgent_cases};
pub use counted::{AtWork, turns_left};
pub use finish::{Brought, Finish, JobEnd, finish_job};
pub use job_steps::{JobSteps, outcome_of};
