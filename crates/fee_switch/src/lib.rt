//! The banks of a flash over its driver: the start-up that reads them, and the switch from the active one to the next,
//! one operation a step.
//!
//! It promises that a start-up finds the active bank, whatever the bytes are, and loads its log, which operation each
//! step makes and what its answer leaves, and that appends go to the active log beside the switch. What the bytes of
//! the flash hold of it is left to `fee_switch_laws`, but for the steps of the target; jobs and their room are left to
//! the crates above.
#![tactic(auto)]

mod active;
mod banks;
mod copy;
mod due;
mod loading;
mod phase;
mod reading;
mod start;
mod steps;
mod target;

pub use active::{ActiveBank, comes_first};
pub use banks::Banks;
pub use loading::Coming;
pub use phase::{BankBegin, BankStart, Phase};
pub use target::{Stage, Target};
