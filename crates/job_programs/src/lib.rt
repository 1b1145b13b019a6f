//! What a job program is: which operations of the device a job makes, how often each is tried, and what the job ends with.
//!
//! It promises that a program ends with the machine's result for the operations that failed at every try, whatever the
//! device gives that fits its marks. The programs themselves are left to the crates above.
#![tactic(auto)]

mod job;
mod program_job;
mod table;

pub use job::{is_again, settles, works};
pub use program_job::ProgramJob;
pub use table::{end_of_none, end_of_one, end_of_two};
