// The flash driver.
ghost use Rattle.std.specs.Prelude.{◌≡◌, ◌↔◌, ◌⊎◌, ◌<◌, true, false, length, None, Some, IsOk, IsSome, OnOk, OnErr};
ghost use Rattle.nv_base.specs.Count.{Rose, next_count};
ghost use Rattle.nv_base.specs.Geometry.{IsLegal};
ghost use Rattle.fls_model.specs.declared.flash.FlashAnswer.TheVariants.{Off};
ghost use Rattle.nv_base.specs.Plan.{Nears};
ghost use Rattle.fls_model.specs.Plan.{PlanGoes};
ghost use Rattle.fls_model.specs.Told.{armed, powered};
ghost use Rattle.fls_model.specs.Attach.{IsAttach};
ghost use Rattle.fls_jobs.specs.Job.{IsJobIn};
ghost use Rattle.fls_jobs.specs.Reach.{read_reach, write_reach, compare_reach, erase_reach};
ghost use Rattle.fls_jobs.specs.Start.{CanStart, IsAnswer, Starts};
ghost use Rattle.fls_jobs.specs.State.{just_made, status_of, IsDriverState};
ghost use Rattle.fls_jobs.specs.Turn.{TakesInto, IsTurn};

use crate::call::do_call;
use crate::job::left_of;
use crate::reach::{Reach, check_length, check_place, of_compare, of_erase, of_read, of_write};
use crate::{FlsJob, FlsRefusal, FlsResult, FlsStatus, FlsTurn, Page};
use fls_model::{AttachFault, Flash};
use nv_base::Geometry;
use std::alloc::Global;
use std::marker::Model;

/// A flash driver that does one job at a time (SWS Flash Driver). It takes no memory but in `attach`.
#[derive(Drop)]
pub struct Fls<F: Flash> {
    pub(crate) flash: F,
    geometry: Geometry,
    attached: bool,
    job: Option<FlsJob>,
    pub(crate) result: FlsResult,
}

impl<F: Flash> Model for Fls<F> {
    ghost use Rattle.fls_jobs.specs.State.{FlsState, IsDriverState};

    ghost Value = { FlsState };

    ghost view = { λ f. record {
      flash = F.told f.flash;
      geometry = f.geometry;
      attached = f.attached;
      job = f.job;
      result = f.result;
    } };

    ghost invariant = { λ f. IsDriverState (record {
      flash = F.told f.flash;
      geometry = f.geometry;
      attached = f.attached;
      job = f.job;
      result = f.result;
    }) };
}

impl<F: Flash> Fls<F> {
    /// A driver of a flash of this geometry, which isn't attached yet.
    pub fn make(flash: F, geometry: Geometry) -> Fls<F>
        requires { IsLegal geometry }
        ensures { result ≡ just_made (F.told flash) geometry }
    {
        Fls {
            flash,
            geometry,
            attached: false,
            job: None,
            result: FlsResult::JobOk,
        }
    }

    /// Attaches the flash. At Ok no job is open, and the result is `JobOk`.
    pub fn attach(&mut self, alloc: Global) -> Result<(), AttachFault>
        ensures attach { IsAttach self.old.geometry self.old.flash result self.new.flash }
        ensures ok { OnOk result (self.new ≡ record self.old { flash = self.new.flash; attached = true; job = None; result = FlsResult.JobOk }) }
        ensures err { OnErr result (self.new ≡ record self.old { flash = self.new.flash }) }
    {
        self.flash.attach(alloc, self.geometry)?;
        self.attached = true;
        self.job = None;
        self.result = FlsResult::JobOk;
        Ok(())
    }

    /// Ends a standing power cut, and drops a plan.
    pub fn power_on(&mut self)
        requires { self.old.job ≡ None }
        ensures { self.new ≡ record self.old { flash = powered self.old.flash } }
    {
        self.flash.power_on();
    }

    /// Plans a power cut at the nth changing operation from now, with so many bytes of it done, while the flash takes
    /// plans and nth isn't 0.
    pub fn arm(&mut self, nth: u32, keep: u32)
        requires { self.old.job ≡ None }
        ensures { self.new ≡ record self.old { flash = armed nth keep self.old.flash } }
    {
        self.flash.arm(nth, keep);
    }

    /// The flash, to look at.
    pub fn flash(&self) -> &F
        ensures { F.told result.now ≡ self.now.flash }
    {
        &self.flash
    }

    /// Gives the flash back as it is.
    pub fn into_flash(self) -> F
        ensures { F.told result ≡ self.flash }
    {
        let Fls { flash, .. } = self;
        flash
    }

    // Whether a job may begin at a place and have a length.
    fn check(&self, reach: Reach, at: u32, length: usize) -> Result<(), FlsRefusal>
        requires { 0 < reach.unit }
        ensures answer { IsAnswer self.now reach at length result }
        ensures accepted { CanStart self.now reach at length → IsOk result }
    {
        if self.job.is_some() {
            return Err(FlsRefusal::Busy);
        }
        if !self.attached {
            return Err(FlsRefusal::Uninit);
        }
        check_place(reach, at)?;
        check_length(reach, at, length)
    }

    // Opens a job that may begin.
    fn open(&mut self, job: FlsJob)
        requires attached { self.old.attached ≡ true }
        requires inside { IsJobIn self.old.geometry job }
        ensures { self.new ≡ record self.old { job = Some job; result = FlsResult.JobPending } }
    {
        self.job = Some(job);
        self.result = FlsResult::JobPending;
    }

    /// Begins a read of up to 65,536 bytes.
    pub fn start_read(&mut self, address: u32, length: u32) -> Result<(), FlsRefusal>
        ensures start { Starts (FlsJob.Read address length) self.old (read_reach self.old.geometry) address length result self.new }
        ensures accepted { CanStart self.old (read_reach self.old.geometry) address length → IsOk result }
    {
        self.check(of_read(self.geometry), address, length as usize)?;
        self.open(FlsJob::Read { address, length });
        Ok(())
    }

    /// Begins a write of one page.
    pub fn start_write(&mut self, address: u32, content: &[u8]) -> Result<(), FlsRefusal>
        ensures start { Starts (FlsJob.Write address content.now) self.old (write_reach self.old.geometry) address (length content.now) result self.new }
        ensures accepted { CanStart self.old (write_reach self.old.geometry) address (length content.now) → IsOk result }
    {
        self.check(of_write(self.geometry), address, content.len())?;
        self.open(FlsJob::Write {
            address,
            page: Page::of(content),
        });
        Ok(())
    }

    /// Begins an erase of so many sectors.
    pub fn start_erase(&mut self, sector: u32, count: u32) -> Result<(), FlsRefusal>
        ensures start { Starts (FlsJob.Erase sector count) self.old (erase_reach self.old.geometry) sector count result self.new }
        ensures accepted { CanStart self.old (erase_reach self.old.geometry) sector count → IsOk result }
    {
        self.check(of_erase(self.geometry), sector, count as usize)?;
        self.open(FlsJob::Erase { sector, count });
        Ok(())
    }

    /// Begins a compare of up to a page of bytes with those of the flash.
    pub fn start_compare(&mut self, address: u32, content: &[u8]) -> Result<(), FlsRefusal>
        ensures start { Starts (FlsJob.Compare address content.now) self.old (compare_reach self.old.geometry) address (length content.now) result self.new }
        ensures accepted { CanStart self.old (compare_reach self.old.geometry) address (length content.now) → IsOk result }
    {
        self.check(of_compare(self.geometry), address, content.len())?;
        self.open(FlsJob::Compare {
            address,
            content: Page::of(content),
        });
        Ok(())
    }

    /// Begins a check that up to 65,536 bytes are blank.
    pub fn start_blank_check(&mut self, address: u32, length: u32) -> Result<(), FlsRefusal>
        ensures start { Starts (FlsJob.BlankCheck address length) self.old (read_reach self.old.geometry) address length result self.new }
        ensures accepted { CanStart self.old (read_reach self.old.geometry) address length → IsOk result }
    {
        self.check(of_read(self.geometry), address, length as usize)?;
        self.open(FlsJob::BlankCheck { address, length });
        Ok(())
    }

    /// Ends an open job, which did what its turns did.
    pub fn cancel(&mut self)
        ensures open { IsSome self.old.job → self.new ≡ record self.old { job = None; result = FlsResult.JobCanceled } }
        ensures none { self.old.job ≡ None → self.new ≡ self.old }
    {
        if self.job.take().is_some() {
            self.result = FlsResult::JobCanceled;
        }
    }

    /// Does one unit of the open job by one flash call: the read of a range into `into`, the program of a page, the
    /// erase of a sector, the read of bytes to compare, or the read of a range into `into` to see whether it is blank.
    /// `Off` comes only while a power cut stands, and the job stays as it was; where none stood before, it is the planned
    /// one at its operation, or one more without a plan.
    pub fn turn(&mut self, into: &mut [u8]) -> FlsTurn
        requires { TakesInto self.old.job (length into.old) }
        ensures turn { IsTurn self.old into.old result into.new self.new }
        ensures idle { (result ≡ FlsTurn.Idle) ↔ (self.old.job ≡ None) }
        ensures failed { self.new.result ≡ FlsResult.JobFailed → result ≡ FlsTurn.Worked → Rose self.old.flash.faults self.new.flash.faults }
        ensures off { result ≡ FlsTurn.Off → self.new.flash.off ≡ true }
        ensures off_paid { result ≡ FlsTurn.Off → self.old.flash.off ≡ false → PlanGoes Off self.old.flash.planning self.new.flash.planning }
        ensures plan_waits { result ≡ FlsTurn.Worked → (self.new.flash.planning ≡ self.old.flash.planning) ⊎ (Nears self.old.flash.planning self.new.flash.planning × (self.new.flash.ops ≡ next_count self.old.flash.ops)) }
        ensures one_change { (self.new.flash.ops ≡ self.old.flash.ops) ⊎ (self.new.flash.ops ≡ next_count self.old.flash.ops) }
    {
        let Some(job) = &self.job else {
            return FlsTurn::Idle;
        };
        let Some(result) = do_call(&mut self.flash, job, into) else {
            return FlsTurn::Off;
        };
        self.job = left_of(job, result);
        self.result = result;
        FlsTurn::Worked
    }

    // Tells proofs what holds of each driver.
    pub(crate) fn tell_state(&self)
        ensures { IsDriverState self.now }
    {
        let _ = &self.flash;
    }

    /// Whether the flash is attached, and whether a job is open.
    pub fn status(&self) -> FlsStatus
        ensures status { result ≡ status_of self.now }
        ensures state { IsDriverState self.now }
    {
        if self.job.is_some() {
            FlsStatus::Busy
        } else if self.attached {
            FlsStatus::Idle
        } else {
            FlsStatus::Uninit
        }
    }

    /// What the last job came to, `JobPending` exactly while one is open.
    pub fn result(&self) -> FlsResult
        ensures result { result ≡ self.now.result }
        ensures pending { (result ≡ FlsResult.JobPending) ↔ IsSome self.now.job }
    {
        self.result
    }
}
