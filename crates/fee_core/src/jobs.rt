// The start of a job.
ghost use Rattle.std.specs.Prelude.{◌≡◌, ◌≤◌, false, true, length, Some, None, IfOk, MatchResult};
ghost use Rattle.nv_base.specs.declared.job.DeviceOp.TheVariants.{Read, Write, Invalidate, Erase};
ghost use Rattle.nv_base.specs.declared.mark.Mark.TheVariants as mark;
ghost use Rattle.memif.specs.Told.{length_of};
ghost use Rattle.memif.specs.Calls.{Accepts, ClockStays, Opens, refusal_of};
ghost use Rattle.fee_laws.specs.Inside.{mark_of};
ghost use Rattle.fee_laws.specs.Record.{IsJobOf};
ghost use Rattle.fee_laws.specs.CallLaws.{IsPromised};
ghost use Rattle.fee_core.specs.Whole.{Sound, told_in, clock_in};

use crate::Origin;
use crate::parts::FeeParts;
use crate::room::{pages_of_op, ready};
use fee_laws::FeeJob;
use fls_model::Flash;
use memif::DeviceRefusal;
use nv_base::{DeviceNumber, DeviceOp};

// A job that isn't urgent.
fn plain_job(number: DeviceNumber, op: DeviceOp, length: u16) -> FeeJob
    ensures { result ≡ record { number = number; op = op; length = length; urgent = false; promised = false } }
{
    FeeJob {
        number,
        op,
        length,
        urgent: false,
        promised: false,
    }
}

impl<F: Flash, O: Origin> FeeParts<F, O> {
    // The length of a number that a job may be taken for.
    fn check(&self, number: DeviceNumber, length: Option<usize>) -> Result<u16, DeviceRefusal>
        requires { Sound O.making O.entry self.now }
        ensures refusal { MatchResult result (λ n. refusal_of (told_in O.making O.entry self.now) number.0 length ≡ None) (λ r. refusal_of (told_in O.making O.entry self.now) number.0 length ≡ Some r) }
        ensures length { IfOk result (λ n. length_of O.making.numbers number.0 ≡ Some n) }
        ensures few { IfOk result (λ n. n ≤ 4096) }
        ensures closed { IfOk result (λ n. (self.now.parts.job ≡ None) × (self.now.parts.started ≡ true)) }
    {
        if self.job.is_some() {
            return Err(DeviceRefusal::Busy);
        }
        if !self.started {
            return Err(DeviceRefusal::Uninit);
        }
        let Some(place) = self.numbers.place_of(number) else {
            return Err(DeviceRefusal::BadNumber);
        };
        let wanted = self.numbers.as_slice()[place].1;
        match length {
            Some(length) if length != usize::from(wanted) => Err(DeviceRefusal::BadLength),
            _ => Ok(wanted),
        }
    }

    // Opens a job with its content.
    fn open(&mut self, job: FeeJob, content: &[u8])
        requires sound { Sound O.making O.entry self.old }
        requires started { self.old.parts.started ≡ true }
        requires shut { self.old.parts.job ≡ None }
        requires job { IsJobOf O.making.numbers job }
        requires few { job.length ≤ 4096 }
        requires whole { length content.now ≤ 4096 }
        requires content { job.op ≡ Write → job.length ≡ length content.now }
        requires promised { IsPromised O.making self.old.parts.banks job }
        ensures sound { Sound O.making O.entry self.new }
        ensures opens { Opens (record { number = job.number.0; mark = mark_of job.op content.now; urgent = job.urgent }) (told_in O.making O.entry self.old) (told_in O.making O.entry self.new) }
        ensures stays { ClockStays (clock_in O.making O.entry self.old) (told_in O.making O.entry self.new) (clock_in O.making O.entry self.new) }
    {
        let _active = self.banks.active();
        self.content.put(content);
        self.job = Some(job);
        self.given = 0;
    }

    /// Takes a read of a number's content.
    pub fn start_read(&mut self, number: DeviceNumber, length: u16) -> Result<(), DeviceRefusal>
        requires { Sound O.making O.entry self.old }
        ensures sound { Sound O.making O.entry self.new }
        ensures accepts { Accepts (record { job = record { number = number.0; mark = None; urgent = false }; length = Some length }) result (told_in O.making O.entry self.old) (clock_in O.making O.entry self.old) (told_in O.making O.entry self.new) (clock_in O.making O.entry self.new) }
    {
        let length = self.check(number, Some(usize::from(length)))?;
        self.open(plain_job(number, DeviceOp::Read, length), &[]);
        Ok(())
    }

    /// Takes a write of a content. An urgent one has the pages that others leave to it.
    pub fn start_write(
        &mut self,
        number: DeviceNumber,
        content: &[u8],
        urgent: bool,
    ) -> Result<(), DeviceRefusal>
        requires { Sound O.making O.entry self.old }
        ensures sound { Sound O.making O.entry self.new }
        ensures accepts { Accepts (record { job = record { number = number.0; mark = Some (mark.Content content.now); urgent = urgent }; length = Some (length content.now) }) result
            (told_in O.making O.entry self.old) (clock_in O.making O.entry self.old) (told_in O.making O.entry self.new) (clock_in O.making O.entry self.new) }
    {
        let length = self.check(number, Some(content.len()))?;
        let pages = pages_of_op(self.banks.geometry().page, DeviceOp::Write, length);
        let promised = urgent && pages <= ready(&self.banks, self.reserve);
        let job = FeeJob {
            number,
            op: DeviceOp::Write,
            length,
            urgent,
            promised,
        };
        self.open(job, content);
        Ok(())
    }

    /// Takes an invalidation.
    pub fn start_invalidate(&mut self, number: DeviceNumber) -> Result<(), DeviceRefusal>
        requires { Sound O.making O.entry self.old }
        ensures sound { Sound O.making O.entry self.new }
        ensures accepts { Accepts (record { job = record { number = number.0; mark = Some mark.Invalid; urgent = false }; length = None }) result (told_in O.making O.entry self.old) (clock_in O.making O.entry self.old) (told_in O.making O.entry self.new) (clock_in O.making O.entry self.new) }
    {
        self.check(number, None)?;
        self.open(plain_job(number, DeviceOp::Invalidate, 0), &[]);
        Ok(())
    }

    /// Takes an erase.
    pub fn start_erase(&mut self, number: DeviceNumber) -> Result<(), DeviceRefusal>
        requires { Sound O.making O.entry self.old }
        ensures sound { Sound O.making O.entry self.new }
        ensures accepts { Accepts (record { job = record { number = number.0; mark = Some mark.Erased; urgent = false }; length = None }) result (told_in O.making O.entry self.old) (clock_in O.making O.entry self.old) (told_in O.making O.entry self.new) (clock_in O.making O.entry self.new) }
    {
        self.check(number, None)?;
        self.open(plain_job(number, DeviceOp::Erase, 0), &[]);
        Ok(())
    }
}
