//! The bytes of a page: the head of a bank, a gate, the header of a record and its other pages.
//!
//! It promises writers and readers that are exact inverses of each other, over slices and without memory, the same as
//! functions that compute in definitions, and what a torn erase can make of a page. What the pages of a bank and the
//! banks of an image mean together is left to `fee_image`.
#![tactic(auto)]

mod alike;
mod bank_head;
mod formats;
mod gate;
mod pages;
mod rec_head;
mod sound_head;

pub use bank_head::{BankHead, LAST_GENERATION, read_bank_head, write_bank_head};
pub use formats::{NEW_FORMAT, OLD_FORMAT};
pub use gate::{gate_stands, write_gate};
pub use pages::pages_of;
pub use rec_head::{RecHead, RecordKind, kind_byte, read_rec_head, write_rec_head};
pub use sound_head::is_sound_head;
