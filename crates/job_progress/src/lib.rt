//! How far the job in hand is: its program, the step that the program named last, and whether the device is at it.
//!
//! It promises that the program goes on by the outcomes of its operations, each of which may be open at the device
//! once, and, as lemmas, that it stays paired with the block machine's job and the device's open job from the Pick to the
//! Post, and ends as the machine says. Who calls the device and adds the entries is left to the crates above.
#![tactic(auto)]

mod hand;
mod program;

pub use hand::Hand;
pub use program::JobProgram;
