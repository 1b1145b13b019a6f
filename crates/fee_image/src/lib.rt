//! What the bytes of an image mean: the records of a bank, the active one of two to eight banks, the marks that a
//! start-up finds, and the log and the switch in memory that these bytes hold.
//!
//! It promises that records, active bank and found marks are functions that compute, what each of them reads, and that
//! appends, erases, copies and gates, done, failed or cut, leave an instance's old mark to be found or the new one: these
//! are lemmas, and its functions are worked cases. The programs that read a bank, keep its log and switch banks are left
//! to the crates above.
#![tactic(auto)]

mod cases;
mod log_cases;
mod place;
mod switch_cases;

pub use cases::{
    active_of_three, active_of_two, counted_writes, first_write, second_write_cut, sound_or_not,
    torn_erase, torn_programs,
};
pub use log_cases::{loaded_logs, refused_logs, second_write, second_write_given_up};
pub use place::Place;
pub use switch_cases::{blank_flash, copied_flags, refused_banks, sealed_copy};
