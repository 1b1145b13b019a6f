//! What the answers of a UDS gateway tell, in a legal history.
//!
//! It promises that where nothing fails a mark without a content stands behind each answer to a read that gave nothing, and a
//! flash that is worn out behind each to a write that failed; and that what a Post gives has its block's length. Which run it
//! is, and that it is legal, is left to the crates above.
#![tactic(auto)]

mod laws;

pub use laws::{answers_have_causes, posts_give_lengths};
pub use uds_gateway;
