//! What any memory device over a flash tells, whatever it keeps on it: what its numbers hold, its clock by the operations of
//! the flash, its part.
//!
//! A device is told here by its reading (`Reading` of `promise_device`), what its flash tells, and the operations that it asked
//! for. Its laws say that each call keeps the clock and the part as a memory device's, and that what is told holds of the
//! flash. They are lemmas, and its functions are worked cases; what the bytes mean is left to the device's own crates.
#![tactic(auto)]

mod cases;

pub use cases::{images_found, images_told};
