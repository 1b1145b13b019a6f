//! What people write and read: the steps of a script, the line of each entry of a history, and a history's summary.
//!
//! It promises that a line is exactly the text of its entry, which follows from it, that a summary counts every entry,
//! and that a script gives exactly the steps that it spells, each of which one player can make in `play`, or names its
//! first wrong line. Which entries a history may hold, and what becomes of a step, is left to the crates that take
//! them.
#![tactic(auto)]

mod caller;
mod counts;
mod cut;
mod digits;
mod kept_step;
mod lines;
mod number;
mod owners;
mod played_cases;
mod rules;
mod script;
mod spelling;
mod step;
mod step_list;
mod summary;
mod text;
mod values;
mod word;
mod words;

pub use cut::line_length;
pub use kept_step::KeptStep;
pub use lines::{end_text, entry_text, entry_text_in};
pub use played_cases::other_steps_are_not_played;
pub use script::{Mode, ScriptFault, first_line, read_script};
pub use step::{Step, StepKind};
pub use step_list::StepList;
pub use summary::summary_text;
pub use values::entry_value;
