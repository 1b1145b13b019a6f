//! What a memory device over an EEPROM of paired slots knows and tells, and the laws of its calls.
//!
//! It promises what each call and each kind of turn comes to, from what the calls of its driver answer, and that the device
//! stays sound: these are lemmas. Its program is left to `ea_slots`.
#![tactic(auto)]

mod job;
mod state;

pub use ea_image;
pub use fls_jobs;
pub use fls_model;
pub use fls_told;
pub use job::EaJob;
pub use memif;
pub use nv_base;
pub use promise_device;
pub use state::SlotState;
