// The steps of a job at the device.
use crate::{Instance, ReqResult};

/// An operation of the memory device, on one instance.
#[derive(Clone, Copy)]
pub enum DeviceOp {
    Read,
    Write,
    Invalidate,
    Erase,
}

/// What became of a job's last step: none was made yet (`First`), the operation wrote its mark (`Wrote`), it read a
/// content (`Read`), it found the instance erased (`Inconsistent`, after MEMIF_BLOCK_INCONSISTENT) or invalidated
/// (`Invalid`), or this try of it failed (`Failed`).
#[derive(Clone, Copy, PartialEq, Eq)]
pub enum Outcome {
    First,
    Wrote,
    Read,
    Inconsistent,
    Invalid,
    Failed,
}

/// Where the content comes from that a job gives: nowhere, since it gives none; what its last read read; the block's
/// defaults; or the ROM dataset of its index.
#[derive(Clone, Copy)]
pub enum GivenFrom {
    Nothing,
    Device,
    Defaults,
    Rom,
}

/// What a job does next: an operation of the device, or its end.
#[derive(Clone, Copy)]
pub enum JobStep {
    Device {
        op: DeviceOp,
        instance: Instance,
    },
    Ended {
        result: ReqResult,
        source: GivenFrom,
    },
}
