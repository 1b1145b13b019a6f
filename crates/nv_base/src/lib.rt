//! The words of the memory stack: instances, marks, requests, results, the history, the shape of a flash, and traces.
//!
//! It promises lists that keep their order and bounds, sums of a shape that are exact, and memory that is taken before
//! it is needed; a trace, which only contracts read, takes none. What a history may hold, and what a flash does, is
//! left to the crates above.
#![tactic(auto)]

mod alike;
mod bytes;
mod bytes_room;
mod decimal;
mod entry;
mod geometry;
mod history;
mod instance;
mod job;
mod lengths;
mod mark;
mod marks;
mod marks_room;
mod pages;
mod plan;
mod repeated;
mod request;
mod result;
mod trace;

pub use alike::all_are;
pub use bytes::{Bytes, bytes_of};
pub use bytes_room::BytesRoom;
pub use decimal::decimal_number;
pub use entry::{Entry, Taken};
pub use geometry::Geometry;
pub use history::History;
pub use instance::{DeviceNumber, Instance, instance_of, number_of};
pub use job::{DeviceOp, GivenFrom, JobStep, Outcome};
pub use lengths::{Lengths, are_lengths, lengths_of};
pub use mark::Mark;
pub use marks::Marks;
pub use marks_room::MarksRoom;
pub use pages::record_pages;
pub use plan::Plan;
pub use request::{JobKind, Refusal, Reply, Request, refusal_number};
pub use result::{ReqResult, result_code};
pub use std::alloc::AllocFailed;
pub use trace::Trace;
