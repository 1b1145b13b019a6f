//! Laws of the calls of a memory device over the banks of a flash: its making, a plan of a power cut, a start-up, the
//! start and the cancel of a job, and a turn.
//!
//! From the parts of a device before a call, and what the call of its flash answered, each gives that the call is a
//! memory device's, that the parts behind it are sound, and that its banks follow the bytes of the flash. They are
//! lemmas; the program of the device, which makes the calls, is left to `fee_core`.
#![tactic(auto)]

mod job;

pub use fee_switch_laws::{BankBegin, BankStart, Banks, Log, LogStep, Phase};
pub use job::FeeJob;
