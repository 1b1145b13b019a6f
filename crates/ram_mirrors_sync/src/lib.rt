//! The application's copies of its synchronized blocks over mirrors: two for each block, one each way, so that neither
//! the application nor the driver of the stack waits for the other.
//!
//! It promises that each content that the driver copies out is the newest store that this very look showed, with its
//! number and what came along with it; that copies stay over the same mirrors, so that at `close` each pair that either
//! end took is a whole store of the other; and that all calls but `make` take no memory. Who has the sides, what a store
//! hands along, and when the driver copies, is left to the crates above.
#![tactic(auto)]

mod closing;
mod crossing;
mod end;
mod making;
mod mirrors;
mod note;
mod side;
mod sides;
mod sync;

pub use closing::close;
pub use end::{End, Ends};
pub use making::make;
pub use mirrors::{Mirrors, Pair};
pub use note::Note;
pub use side::Side;
pub use sides::Sides;
pub use sync::{MirrorSync, hold_note};
