// The start of a job, and its cancel.
ghost use Rattle.std.specs.Prelude.{◌≡◌, ◌≢◌, true, None, Some, IfOk, IfSome, MatchResult};
ghost use Rattle.nv_base.specs.declared.job.DeviceOp.TheVariants.{Write};
ghost use Rattle.memif.specs.Calls.{Accepts, ClockStays, Opens, refusal_of};
ghost use Rattle.ea_told.specs.Calls.{canceled};
ghost use Rattle.ea_told.specs.Device.{mark_of, told_of, clock_of};
ghost use Rattle.ea_told.specs.Inside.{IsLengthOf, IsSound};
ghost use Rattle.ea_told.specs.Making.{entry_of};
ghost use Rattle.ea_slots.specs.Jobs.{IsJobOf, IsContentOf, AsksFor};

use crate::Origin;
use crate::parts::EaParts;
use ea_image::SlotStep;
use ea_told::EaJob;
use fls_model::Flash;
use memif::{DeviceRefusal, JobResult};
use nv_base::{DeviceNumber, DeviceOp};

// The length of the content of an operation on a number of this size.
fn length_for(op: DeviceOp, size: u16) -> u16
    ensures fits { IsLengthOf op result size }
    ensures whole { op ≡ Write → result ≡ size }
{
    match op {
        DeviceOp::Read | DeviceOp::Write => size,
        DeviceOp::Invalidate | DeviceOp::Erase => 0,
    }
}

impl<F: Flash, O: Origin> EaParts<F, O> {
    // The place of a number that a job may be taken for, and its length.
    fn check(
        &self,
        number: DeviceNumber,
        length: Option<usize>,
    ) -> Result<(u32, u16), DeviceRefusal>
        requires { IsSound O.making O.entry self.now }
        ensures refusal { MatchResult result (λ r. refusal_of (told_of O.making O.entry self.now) number.0 length ≡ None) (λ r. refusal_of (told_of O.making O.entry self.now) number.0 length ≡ Some r) }
        ensures entry { IfOk result (λ r. entry_of O.making number.0 ≡ Some (r.0, (number, r.1))) }
        ensures wanted { IfOk result (λ r. IfSome length (λ n. n ≡ r.1)) }
        ensures closed { IfOk result (λ r. (self.now.job ≡ None) × (self.now.started ≡ true)) }
    {
        if self.job.is_some() {
            return Err(DeviceRefusal::Busy);
        }
        if !self.started {
            return Err(DeviceRefusal::Uninit);
        }
        let Some(found) = self.find(number) else {
            return Err(DeviceRefusal::BadNumber);
        };
        match length {
            Some(length) if length != usize::from(found.1) => Err(DeviceRefusal::BadLength),
            _ => Ok(found),
        }
    }

    // The job that may be taken for a number, before its first step.
    fn job_for(
        &self,
        number: DeviceNumber,
        op: DeviceOp,
        length: Option<usize>,
        urgent: bool,
    ) -> Result<EaJob, DeviceRefusal>
        requires { IsSound O.making O.entry self.now }
        ensures refusal { MatchResult result (λ j. refusal_of (told_of O.making O.entry self.now) number.0 length ≡ None) (λ r. refusal_of (told_of O.making O.entry self.now) number.0 length ≡ Some r) }
        ensures job { IfOk result (λ j. IsJobOf O.making j) }
        ensures shape { IfOk result (λ j. j ≡ record { number = number; place = j.place; op = op; length = j.length; urgent = urgent; step = SlotStep.EraseHead }) }
        ensures content { IfOk result (λ j. op ≡ Write → IfSome length (λ n. n ≡ j.length)) }
        ensures closed { IfOk result (λ j. (self.now.job ≡ None) × (self.now.started ≡ true)) }
    {
        let found = self.check(number, length)?;
        Ok(EaJob {
            number,
            place: found.0,
            op,
            length: length_for(op, found.1),
            urgent,
            step: SlotStep::EraseHead,
        })
    }

    // Opens a job with its content.
    fn open(&mut self, job: EaJob, content: &[u8])
        requires sound { IsSound O.making O.entry self.old }
        requires started { self.old.started ≡ true }
        requires shut { self.old.job ≡ None }
        requires job { IsJobOf O.making job }
        requires content { IsContentOf job.op job.length content.now }
        ensures sound { IsSound O.making O.entry self.new }
        ensures opens { Opens (record { number = job.number.0; mark = mark_of job.op content.now; urgent = job.urgent }) (told_of O.making O.entry self.old) (told_of O.making O.entry self.new) }
        ensures stays { ClockStays (clock_of O.making O.entry self.old) (told_of O.making O.entry self.new) (clock_of O.making O.entry self.new) }
    {
        self.content.put(content);
        self.job = Some(job);
        self.given = 0;
    }

    /// Takes a job with its content, where no refusal holds.
    pub fn take_job(
        &mut self,
        number: DeviceNumber,
        op: DeviceOp,
        wanted: Option<usize>,
        content: &[u8],
        urgent: bool,
    ) -> Result<(), DeviceRefusal>
        requires sound { IsSound O.making O.entry self.old }
        requires content { AsksFor op wanted content.now }
        ensures sound { IsSound O.making O.entry self.new }
        ensures accepts { Accepts (record { job = record { number = number.0; mark = mark_of op content.now; urgent = urgent }; length = wanted }) result
            (told_of O.making O.entry self.old) (clock_of O.making O.entry self.old) (told_of O.making O.entry self.new) (clock_of O.making O.entry self.new) }
    {
        match self.job_for(number, op, wanted, urgent) {
            Ok(job) => {
                self.open(job, content);
                Ok(())
            }
            Err(refusal) => Err(refusal),
        }
    }

    /// Ends an open job with `JobCanceled`. The settled marks stay.
    pub fn cancel(&mut self)
        ensures open { self.old.job ≢ None → self.new ≡ canceled self.old }
        ensures none { self.old.job ≡ None → self.new ≡ self.old }
    {
        if self.job.is_some() {
            self.job = None;
            self.last = JobResult::JobCanceled;
            self.given = 0;
        }
    }
}
