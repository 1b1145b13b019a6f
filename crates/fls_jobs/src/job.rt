// The job that is open.
ghost use Rattle.std.specs.Prelude.{◌≡◌};
ghost use Rattle.fls_jobs.specs.Job.{HasNext, job_left};

use crate::{FlsResult, Page};

/// A job with what it has left to do. Addresses and lengths are in bytes, the count of an erase in sectors.
#[derive(Drop)]
pub enum FlsJob {
    Read { address: u32, length: u32 },
    Write { address: u32, page: Page },
    Erase { sector: u32, count: u32 },
    Compare { address: u32, content: Page },
    BlankCheck { address: u32, length: u32 },
}

/// What is left of a job whose unit came to this.
pub(crate) fn left_of(job: &FlsJob, came_to: FlsResult) -> Option<FlsJob>
    requires { HasNext job.now }
    ensures { result ≡ job_left job.now came_to }
{
    match (job, came_to) {
        (FlsJob::Erase { sector, count }, FlsResult::JobPending) => Some(FlsJob::Erase {
            sector: sector + 1,
            count: count - 1,
        }),
        _ => None,
    }
}
