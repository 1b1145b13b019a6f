//! What a flash is: reads, programs and erases, what a power cut or a fault may leave, and a flash in memory.
//!
//! It promises that every answer has its cause and every byte its place. Cuts on purpose, scripted faults and image
//! files are left to the devices over it, jobs to the driver.
#![tactic(auto)]

mod call;
mod flash;
mod image;
mod memory;
mod range;
mod worked;

pub use call::{Call, program_call};
pub use flash::{AttachFault, Flash, FlashAnswer, SizedFlash};
pub use image::may_leave;
pub use memory::{MemFlash, mem_flash};
pub use worked::{answer_cases, planned_cases, room_cases, worked_cases};
