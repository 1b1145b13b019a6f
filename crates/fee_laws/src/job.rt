// The open job.

use nv_base::{DeviceNumber, DeviceOp};

/// An operation on a number, with the length of its content. An urgent write that was ready is promised to end soon.
#[derive(Clone, Copy, Drop)]
pub struct FeeJob {
    pub number: DeviceNumber,
    pub op: DeviceOp,
    pub length: u16,
    pub urgent: bool,
    pub promised: bool,
}
