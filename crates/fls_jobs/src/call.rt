// One unit of a job: one call of the flash.
ghost use Rattle.std.specs.Prelude.{◌≡◌, ◌≤◌, length, if◌then◌else◌};
ghost use Rattle.nv_base.specs.Geometry.{IsLegal};
ghost use Rattle.fls_model.specs.Told.{HasRange};
ghost use Rattle.fls_jobs.specs.Job.{HasInto, IsJobIn};
ghost use Rattle.fls_jobs.specs.CallOf.{result_after, Compares, IsCallOf, erase_result};

use crate::{FlsJob, FlsResult};
use fls_model::{Flash, FlashAnswer};
use nv_base::all_are;

// What a job comes to by the answer to its call: nothing new while the power is off.
fn came_to(answer: FlashAnswer, done: FlsResult) -> Option<FlsResult>
    ensures { result ≡ result_after answer done }
{
    match answer {
        FlashAnswer::Done => Some(done),
        FlashAnswer::Failed => Some(FlsResult::JobFailed),
        FlashAnswer::Off => None,
    }
}

// What an erase of so many sectors comes to where its first is done.
fn erased(count: u32) -> FlsResult
    ensures { result ≡ erase_result count }
{
    if count == 1 {
        FlsResult::JobOk
    } else {
        FlsResult::JobPending
    }
}

// What a test of bytes comes to.
fn verdict(holds: bool) -> FlsResult
    ensures { result ≡ (if holds then FlsResult.JobOk else FlsResult.Differs) }
{
    if holds {
        FlsResult::JobOk
    } else {
        FlsResult::Differs
    }
}

// Reads as many bytes as there are to compare, and tells whether they are the same.
fn compare<F: Flash>(flash: &mut F, address: u32, content: &[u8]) -> (FlashAnswer, FlsResult)
    requires few { length content.now ≤ 256 }
    requires inside { HasRange (F.told flash.old) address (length content.now) }
    ensures { Compares address content.now (F.told flash.old) result.0 result.1 (F.told flash.new) }
{
    let mut buffer = [0; 256];
    let found = &mut buffer[..content.len()];
    let answer = flash.read(address, found);
    (answer, verdict(*found == *content))
}

/// Makes the flash call of a job's next unit, and answers what the job comes to, None while the power is off.
pub(crate) fn do_call<F: Flash>(flash: &mut F, job: &FlsJob, into: &mut [u8]) -> Option<FlsResult>
    requires legal { IsLegal (F.told flash.old).geometry }
    requires inside { IsJobIn (F.told flash.old).geometry job.now }
    requires into { HasInto job.now (length into.old) }
    ensures { IsCallOf job.now (F.told flash.old) into.old result into.new (F.told flash.new) }
{
    match job {
        FlsJob::Read { address, .. } => came_to(flash.read(*address, into), FlsResult::JobOk),
        FlsJob::Write { address, page } => {
            came_to(flash.program(*address, page.as_slice()), FlsResult::JobOk)
        }
        FlsJob::Erase { sector, count } => came_to(flash.erase(*sector), erased(*count)),
        FlsJob::Compare { address, content } => {
            let (answer, done) = compare(flash, *address, content.as_slice());
            came_to(answer, done)
        }
        FlsJob::BlankCheck { address, .. } => {
            let answer = flash.read(*address, into);
            came_to(answer, verdict(all_are(into, 255)))
        }
    }
}
