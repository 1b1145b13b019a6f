//! What each caller of a script in `run` does: its requests, its stores into synchronized RAM and its waits, in order.
//!
//! It promises that each caller's program has exactly what the caller's steps say, each write of synchronized RAM with
//! the number of its caller's last store, and that no step of another caller is in it. Who does it, and what others do
//! meanwhile, is left to the room that runs callers beside each other.
#![tactic(auto)]

mod cases;
mod deed;
mod deed_list;
mod program;
mod programs;
mod store_counts;

pub use cases::programs_of_callers;
pub use deed::Deed;
pub use deed_list::DeedList;
pub use program::Program;
pub use programs::callers;
