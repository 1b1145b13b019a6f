//! Callers of a shared stack: what each does in order, all of them in threads with the driver beside them, and a run of a
//! script's callers from a start-up to its end.
//!
//! It promises that each caller makes its requests, its stores and its waits in order, each request once; that the history goes
//! on from the start-up, with no copy refused and each power cut counted; and what of the promise stays kept, as far as the
//! device tells what it holds. Which thread runs, and that a caller is ever served, is left to the runtime; which device it is
//! and what becomes of the history to the crates above.
#![tactic(auto)]

mod beside;
mod caller;
mod callers;
mod dealing;
mod ending;
mod event_count;
mod gathering;
mod hold;
mod joining;
mod mirrored;
mod player;
mod programs;
mod round;
mod splitting;
mod steering;
mod stores;
mod threads;
mod wait;

pub use beside::{Drive, ThreadWork};
pub use caller::Caller;
pub use callers::run_callers;
pub use driver_moves::nvm_moves;
pub use ending::Ending;
pub use hold::{Hold, NoHold};
pub use player::{Ran, play_callers};
pub use round::Round;
pub use steering::{Steering, SteeringOf};
pub use stores::{NoStores, SidesIn, Stores};
pub use threads::{Worker, WorkerOf, run_shared};
pub use wait::is_over;
