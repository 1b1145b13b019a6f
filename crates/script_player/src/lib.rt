//! The steps of a script on a stack, over any memory device, whose application stores in memory.
//!
//! It promises that the history stays a walk of the steps that were made, that they explain its refused copies and its
//! power cuts, that their turns serve its jobs, that what each call keeps is kept, and that each step that is left has
//! its cause. Which device it is, and what becomes of the history, is left to the crates above.
#![tactic(auto)]

mod calls;
mod cuts;
mod last_stores;
mod requests;
mod steps;
mod turns;

pub use cuts::cuts_of;
pub use last_stores::LastStores;
pub use requests::serve_requests;
pub use steps::{StepFault, make_step, make_steps};
pub use turns::{drain, make_turns};
pub use uds_gateway;
