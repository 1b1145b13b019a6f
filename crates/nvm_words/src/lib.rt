//! What the words of a call of `nvm` ask for: an image, and a command on it.
//!
//! It promises that each list of words is taken exactly as its definition says, and that want of memory is the only
//! other answer. The words are parsed by `clap`; what a command does is left to `nvm_top`, which makes none over two flashes.
#![tactic(auto)]

mod cases;
mod fields;
mod grammar;
mod pair;
mod words;

pub use cases::words_of_pair_calls;
pub use pair::{PairCall, PairCommand, pair_call, path_named};
pub use words::{CommandKind, command_of, image_path};
