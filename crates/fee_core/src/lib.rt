//! The memory device over the banks of a flash.
//!
//! It promises all that a memory device promises, with turns of at most one flash call, and that what it tells of its flash
//! is so, from its making on. What a call or a turn comes to are laws of the crates below it; that a configuration leaves
//! it the space is left to those above.
#![tactic(auto)]

mod appends;
mod asked;
mod cancel;
mod content;
mod device;
mod fee;
mod jobs;
mod mark_place;
mod operations;
mod origin;
mod parts;
mod power;
mod reads;
mod room;
mod shown;
mod sound_bank;
mod switches;
mod turns;

pub use fee::Fee;
pub use fls_model::{AttachFault, Flash, FlashAnswer, MemFlash, SizedFlash, mem_flash};
pub use mark_place::MarkPlace;
pub use memif::{
    DeviceCall, DeviceRefusal, DeviceStep, DeviceTurn, JobResult, MemDevice, MemIf, PlainMark,
    PlainStore, Rest, erase, make_turns, run_calls, start_up,
};
pub use nv_base::{
    Bytes, DeviceNumber, Entry, Geometry, History, Lengths, Refusal, Reply, ReqResult, Request,
    bytes_of, lengths_of, refusal_number, result_code,
};
pub use origin::Origin;
pub use sound_bank::is_sound_bank;
