//! The commands of the program `nvm`: input, configuration, steps and image to lines of output and a status.
//!
//! It promises that each status has its cause: a fault status comes only where that object's count of faults rose,
//! and nothing of the flash changes where a call stops before start-up. What the blocks and the flash do below it is
//! left to the other crates; the program only makes the real input and output, and what opens an image file.
#![tactic(auto)]

mod answers;
mod attach;
mod callers;
mod check;
mod commands;
mod dump;
mod end_cases;
mod flashes;
mod gateway;
mod image;
mod made;
mod measures;
mod play;
mod program;
mod run;
mod runs;
mod script;
mod served;
mod soak;
mod stack;
mod uds;
mod values;
mod worked;

pub use commands::{
    check_command, command, dump_command, play_command, run_command, soak_command, uds_command,
};
pub use end_cases::{
    causes_of_statuses, flashes_of_runs, flashes_of_words, flashes_that_stay, runs_that_end_early,
};
pub use nvm_flash;
pub use nvm_lines::Status;
pub use program::{ImageOpener, execute};
pub use worked::play_with_room;
