//! The flash driver: one job at a time, read, write, erase, compare or blank check, one flash call a turn, and single
//! calls that leave no job open. It promises that a job is refused exactly by the driver's state and the numbers asked
//! for, that each turn is one step of the flash, and that a job fails only by a counted fault. What the bytes mean is
//! left to the crates above.
#![tactic(auto)]

mod answer;
mod call;
mod fls;
mod job;
mod page;
mod reach;
mod single;

pub use answer::{FlsRefusal, FlsResult, FlsStatus, FlsTurn};
pub use fls::Fls;
pub use job::FlsJob;
pub use page::Page;
