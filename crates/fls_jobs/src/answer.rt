// What the driver answers.

/// Why a job wasn't taken, in the order of the tests: another is open, the flash isn't attached, the place isn't
/// aligned or lies outside, the length isn't one that the job may have there.
#[derive(Clone, Copy)]
pub enum FlsRefusal {
    Busy,
    Uninit,
    BadAddress,
    BadLength,
}

/// What a turn did: nothing as no job is open, one flash call, or nothing as the power is off.
#[derive(Clone, Copy)]
pub enum FlsTurn {
    Idle,
    Worked,
    Off,
}

/// Not attached yet, without a job, or with one open (SWS Flash Driver, MemIf_StatusType).
#[derive(Clone, Copy)]
pub enum FlsStatus {
    Uninit,
    Idle,
    Busy,
}

/// What the last job came to: done, failed by a counted fault, still open, canceled, or done with bytes that differ
/// (SWS Flash Driver, MemIf_JobResultType).
#[derive(Clone, Copy)]
pub enum FlsResult {
    JobOk,
    JobFailed,
    JobPending,
    JobCanceled,
    Differs,
}
