//! One bank as a log of records, over the driver of a flash: the place of each number, appends page by page, and flags.
//!
//! It promises which page each step programs, that the log goes on as the laws of a log and its bank's pages say, done,
//! failed, cut or given up, and that a look-up gives the last committed record. It takes memory at `make` alone. Which bank
//! is active, and when records are copied, is left to the crates above.
#![tactic(auto)]

mod index;
mod load;
mod log;
mod log_step;
mod page;
mod tail;

pub use load::{Awaited, Load};
pub use log::Log;
pub use log_step::LogStep;
pub use tail::Tail;
