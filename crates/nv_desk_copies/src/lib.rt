//! The desk with the copies of synchronized RAM that a Pick takes and a Post gives, and the contents that reads give to
//! the caller's own buffer.
//!
//! It promises that each Pick and each Post adds the one entry that comes next, allowed by the machine, and that what
//! such an entry says of a copy was copied in this very call. Devices, and the programs of jobs, are left to the crates
//! above.
#![tactic(auto)]

mod front;
mod given;
mod over;
mod pick;
mod post;
mod skipped;
mod staged;
mod staging;
mod synchronized;
mod unread;

pub use front::Front;
pub use nv_desk;
pub use staging::Staging;
pub use unread::Unread;
