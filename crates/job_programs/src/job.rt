// What a job does at the device.
ghost use Rattle.std.specs.Prelude.{◌≡◌, ◌<◌, true};
ghost use Rattle.job_programs.specs.Program.{works, operation, retries_of, settles, is_again};

use block_machine::block_config::BlockDesc;
use block_machine::nv_base::{DeviceOp, JobKind, Outcome};

/// Whether a job works on the device, as a read, a write, an erase and an invalidation do.
pub fn works(job: JobKind) -> bool
    ensures { result ≡ works job }
{
    matches!(
        job,
        JobKind::Read | JobKind::Write | JobKind::Erase | JobKind::Invalidate
    )
}

/// The operation of a job that does.
pub fn operation(job: JobKind) -> DeviceOp
    ensures { result ≡ operation job }
{
    match job {
        JobKind::Read => DeviceOp::Read,
        JobKind::Erase => DeviceOp::Erase,
        JobKind::Invalidate => DeviceOp::Invalidate,
        _ => DeviceOp::Write,
    }
}

/// How often an operation of a job is tried again.
pub fn retries(desc: &BlockDesc, job: JobKind) -> u8
    ensures { result ≡ retries_of desc.now job }
{
    if job == JobKind::Read {
        desc.reads
    } else {
        desc.writes
    }
}

/// Whether an operation is tried again behind this outcome, after so many failed tries.
pub fn is_again(outcome: Outcome, failures: u8, retries: u8) -> bool
    ensures value { result ≡ is_again outcome failures retries }
    ensures room { result ≡ true → failures < retries }
{
    outcome == Outcome::Failed && failures < retries
}

/// Whether a job needs no further copy behind this outcome: a read behind a content or an invalid one.
pub fn settles(job: JobKind, outcome: Outcome) -> bool
    ensures { result ≡ settles job outcome }
{
    job == JobKind::Read && matches!(outcome, Outcome::Read | Outcome::Invalid)
}
