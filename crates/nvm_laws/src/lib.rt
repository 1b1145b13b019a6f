//! Laws of the stack: what a turn, a request and a start-up keep beside the job in hand, how a drain goes down, and by
//! when an immediate write is posted.
//!
//! They hold over any memory device: that the history keeps the block side's half of the promise of a run, that a
//! device refuses no operation that a job in hand names, and that an immediate write whose pages are ready is posted
//! within these pages and four turns. Who makes the turns, and which entries they add, is left to `nvm_core`.
#![tactic(auto)]

mod cases;
mod turned;

pub use block_laws;
pub use block_machine::block_config::{
    BlockDesc, BlockKind, Config, ConfigFault, RamKind, demo, read,
};
pub use block_machine::nv_base::{
    AllocFailed, Bytes, DeviceNumber, DeviceOp, Entry, Geometry, GivenFrom, History, Instance,
    JobKind, JobStep, Lengths, Outcome, Reply, ReqResult, Request, Taken, bytes_of, lengths_of,
    number_of, result_code,
};
pub use cases::due_cases;
pub use job_progress::Hand;
pub use memif;
pub use nv_desk_copies::Front;
pub use nv_desk_copies::nv_desk::{
    AskFault, Buffer, Desk, ENDLESS, Event, FoundMarks, Job, Last, LentRequest, MarkKind,
    NextEntry, RequestKind, TakenKind, longest_content,
};
pub use nvm_figures;
pub use ram_blocks::{Copied, PlainSync, RamBlocks, RamFlags, SyncCalls};
pub use turned::{Act, FoundAnswer, Turned};
