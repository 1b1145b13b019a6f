//! What people write and read of a UDS gateway: a request a line, and the line of each answer.
//!
//! It promises that the requests are exactly those of the lines, or that the first wrong line is named, and that a line is
//! exactly the text of its answer. What a request asks for and how it is answered is left to `uds_gateway`.
#![tactic(auto)]

mod answers;
mod line;
mod request_list;
mod requests;

pub use answers::uds_text;
pub use request_list::RequestList;
pub use requests::read_requests;
