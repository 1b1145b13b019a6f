//! Where the stack's bytes come from and where they go to: traits of a source and of a sink, with those of std, of
//! memory, and one that holds lines back. It promises that each gives or takes the bytes in order, and that its every fault is
//! counted. What the bytes mean is said elsewhere.
#![tactic(auto)]

mod held_sink;
mod memory_sink;
mod memory_source;
mod sink;
mod source;
mod std_sink;
mod std_source;
mod write_out;

pub use held_sink::HeldSink;
pub use memory_sink::{MemSink, mem_sink};
pub use memory_source::{MemSource, mem_source};
pub use sink::{Sink, SinkAnswer};
pub use source::{Source, SourceAnswer};
pub use std_sink::StdSink;
pub use std_source::StdSource;
