//! Scripts that a seed draws, for long runs of valid steps.
//!
//! It promises that the steps are exactly those that the generator draws, and that each of them can be played. What
//! becomes of a step is left to the crates that make it.
#![tactic(auto)]

mod cases;
mod draws;
mod rounds;
mod soak;

pub use cases::{drawn_steps, draws_are_drawn};
pub use draws::Draws;
pub use soak::soak_steps;
