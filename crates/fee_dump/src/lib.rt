//! The text of an image, as people read it: for each bank its head, its records and its tail, and which bank is active.
//!
//! It promises that the text is the one that the definitions give for the bytes, whatever they are and however many
//! banks share them, and that want of memory is the only other answer. Where the bytes come from, and where the text
//! goes, is left to the crates above.
#![tactic(auto)]

mod active;
mod bank_text;
mod banks;
mod cases;
mod lines;
mod text;

pub use active::active_bank;
pub use cases::{banks_are_told, writes_are_told};
pub use text::dump_text;
