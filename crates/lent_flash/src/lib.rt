//! A flash that lies in memory that C lends.
//!
//! It promises that the memory holds the flash's bytes at each moment, and comes back with them, that the flash takes no memory
//! beside it, and that it tells all its changes, however many. What a flash is stands in `fls_model`; who lends the memory, and what
//! for, is left to the crates above.
#![tactic(auto)]

mod flash;
mod lent;
mod lent_bytes;
mod noted;
mod places;

pub use flash::LentFlash;
pub use lent::Lent;
pub use lent_bytes::LentBytes;
pub use noted::Noted;
