//! A bank's bytes, read where they stand: its head, its records one after another, its end and its tail.
//!
//! It promises that the items are the bank's records in order, that each payload is the bank's own range, and that
//! nothing is copied and no memory taken. Which of the records count, and what a log keeps of them, is left to the
//! crates above.
#![tactic(auto)]

mod bank_view;
mod page;
mod record;
mod records;

pub use bank_view::{BankView, is_tail_blank};
pub use page::page_of;
pub use record::{Record, Seen, seen_at};
pub use records::Records;
