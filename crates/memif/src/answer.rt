// What a memory device answers.
ghost use Rattle.std.specs.Prelude.{◌≡◌};
ghost use Rattle.memif.specs.Refusal.{number_of_refusal};

use thiserror::Error;

/// Why a job wasn't taken, numbered 1 to 4 in the order of the tests: a job is open, no start-up answered Ok last,
/// the number isn't configured, the length isn't the number's.
#[derive(Clone, Copy, Debug, Error)]
pub enum DeviceRefusal {
    #[error("the device has an open job: make turns until it ends, or cancel it")]
    Busy,
    #[error("the device isn't started: its last start-up has to answer Ok")]
    Uninit,
    #[error("the number isn't one of those that the device was made for")]
    BadNumber,
    #[error("the length isn't the one that the device was made for at this number")]
    BadLength,
}

/// What a device is at (SWS Memory Abstraction Interface, MemIf_StatusType): not started, without work, at a job, or
/// at work of its own.
#[derive(Clone, Copy, PartialEq, Eq)]
pub enum MemStatus {
    Uninit,
    Idle,
    Busy,
    BusyInternal,
}

/// What the last job came to (SWS Memory Abstraction Interface, MemIf_JobResultType): done, failed, still open,
/// canceled, a read of an erased number, or a read of an invalidated one.
#[derive(Clone, Copy, PartialEq, Eq)]
pub enum JobResult {
    JobOk,
    JobFailed,
    JobPending,
    JobCanceled,
    BlockInconsistent,
    BlockInvalid,
}

/// What a turn did: nothing as nothing is open, a step of the work, or nothing as the power is off.
#[derive(Clone, Copy)]
pub enum DeviceTurn {
    Idle,
    Worked,
    Off,
}

/// Why a start-up didn't come to its end: a counted fault.
#[derive(Clone, Copy, Debug, Error)]
pub enum StartFault {
    #[error("the device counted a fault, so its start-up didn't come to its end")]
    Fault,
}

/// A mark without its content.
#[derive(Clone, Copy)]
pub enum PlainMark {
    Content,
    Invalid,
    Erased,
}

/// The number of a refusal, 1 to 4 in the order of the variants.
pub fn device_refusal_number(refusal: DeviceRefusal) -> u8
    ensures { result ≡ number_of_refusal refusal }
{
    refusal as u8 + 1
}
