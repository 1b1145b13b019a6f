//! What a command reads and writes: its input to the end, with the configuration that the first line is; the lines of
//! its output, one by one; and how it ends, by a status and the line of why it stopped.
//!
//! It promises that an input is said to fail, and an output, only where its count of faults rose, that each line is
//! the one that was asked for, and that want of memory writes none. Which steps follow the configuration, and what is
//! done with them, is left to the commands.
#![tactic(auto)]

mod configuration;
mod input;
mod output;
mod status;
mod stop;

pub use configuration::{read_config, read_configuration};
pub use input::{LIMIT, read_input};
pub use nv_streams;
pub use output::{
    OutputFault, put_line, put_lines, report, write_end, write_entries, write_history,
};
pub use status::Status;
pub use stop::Stop;
