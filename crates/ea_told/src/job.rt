// The open job.
use ea_image::SlotStep;
use nv_base::{DeviceNumber, DeviceOp};

/// An operation on the number at a place, with the length of its content, 0 where it has none, and its next step.
#[derive(Clone, Copy)]
pub struct EaJob {
    pub number: DeviceNumber,
    pub place: u32,
    pub op: DeviceOp,
    pub length: u16,
    pub urgent: bool,
    pub step: SlotStep,
}
