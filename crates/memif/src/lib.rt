//! The floor of the stack: what a memory device is, with nothing said of flash or blocks.
//!
//! Its contract says which marks a device holds for certain and which a start-up may find, after each call and after
//! a power cut at each operation. A device in memory meets it; devices over a flash are left to other crates.
#![tactic(auto)]

mod answer;
mod device;
mod kept;
mod mem_if;
mod plain_store;
mod run;
mod trials;
mod worked;

pub use answer::{
    DeviceRefusal, DeviceTurn, JobResult, MemStatus, PlainMark, StartFault, device_refusal_number,
};
pub use device::MemDevice;
pub use mem_if::MemIf;
pub use plain_store::PlainStore;
pub use run::{DeviceCall, DeviceStep, run_calls};
pub use trials::{Rest, erase, make_turns, start_up};
pub use worked::{worked_answers, worked_marks, worked_run, wrong_devices};
