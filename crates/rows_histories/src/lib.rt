//! For tests: histories read back from the text that a command printed, and judged, whether what start-ups found may
//! stand.
//!
//! It promises that the lines of a history that it reads are those of the text, to the byte, and that its answers on
//! which marks may stand are the block machine's of every legal history. An entry follows from its line but for two
//! numbers that no line has: the store of a write with a content of its own, which is read as 0, and how many copies a
//! stale write tried, which is read as the block's number of tries. Where a text comes from, and what becomes of a mark
//! that mustn't stand, is left to the caller.
#![tactic(auto)]

mod allowed;
mod asks;
mod codes;
mod entries;
mod found;
mod histories;
mod instances;
mod judging;
mod marks;
mod posts;
mod seen;
mod start_up;
mod tally;
mod unread;
mod words;

pub use allowed::{allows, allows_behind};
pub use histories::{Printed, read_history};
pub use judging::{Wrong, judge};
pub use start_up::may_find;
pub use tally::Tally;
pub use unread::Unread;
