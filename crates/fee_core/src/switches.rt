// The turns of a switch.
ghost use Rattle.std.specs.Prelude.{◌≡◌, ◌⊎◌, true, false, is_some, None, IfSome, IsSome};
ghost use Rattle.nv_base.specs.Count.{next_count};
ghost use Rattle.fee_laws.specs.fee_log.Log.{work_in};
ghost use Rattle.fee_laws.specs.fee_switch.Banks.{is_worn_out, reads_next};
ghost use Rattle.fee_laws.specs.Work.{fits_in};
ghost use Rattle.fee_laws.specs.Switches.{IsBehind, failed_with};
ghost use Rattle.fee_core.specs.Turning.{IsUp, Waits};
ghost use Rattle.fee_core.specs.Whole.{TurnedTo};

use crate::Origin;
use crate::operations::change_target;
use crate::parts::FeeParts;
use fee_laws::{BankBegin, FeeJob};
use fls_model::{Flash, FlashAnswer};
use memif::{DeviceTurn, JobResult};

impl<F: Flash, O: Origin> FeeParts<F, O> {
    // The flash call of a switch failed: that is counted, and a job that waits ends.
    fn fail(&mut self)
        ensures { self.new ≡ record self.old { parts = failed_with self.old.parts.job (record self.old.parts { faults = next_count self.old.parts.faults }) } }
    {
        self.faults = self.faults.saturating_add(1);
        if let Some(_) = self.job {
            self.job = None;
            self.last = JobResult::JobFailed;
            self.given = 0;
        }
    }

    // The read of the content that is copied next.
    fn turn_copy(&mut self) -> DeviceTurn
        requires up { IsUp O.making O.entry self.old }
        requires idle { work_in self.old.parts.banks.log.tail ≡ None }
        requires behind { IfSome self.old.parts.job (IsBehind self.old.parts.banks) }
        requires reads { reads_next self.old.parts.banks.log self.old.parts.banks.course ≡ true }
        ensures { TurnedTo O.making O.entry result self.old self.new }
    {
        let _active = self.banks.active();
        let answer = self.banks.step(&mut self.fls);
        self.fls.status();
        let _behind = self.banks.active();
        match answer {
            FlashAnswer::Failed => {
                self.fail();
                DeviceTurn::Worked
            }
            _ => DeviceTurn::Worked,
        }
    }

    // The next changing operation of the switch.
    fn turn_target(&mut self) -> DeviceTurn
        requires up { IsUp O.making O.entry self.old }
        requires course { is_some self.old.parts.banks.course ≡ true }
        requires idle { work_in self.old.parts.banks.log.tail ≡ None }
        requires behind { IfSome self.old.parts.job (IsBehind self.old.parts.banks) }
        requires reads { reads_next self.old.parts.banks.log self.old.parts.banks.course ≡ false }
        ensures { TurnedTo O.making O.entry result self.old self.new }
    {
        let _active = self.banks.active();
        let answer = change_target(
            &mut self.fls,
            &mut self.banks,
            &self.content,
            &mut self.operations,
        );
        self.fls.status();
        self.ops = self.ops.saturating_add(1);
        match answer {
            FlashAnswer::Done => DeviceTurn::Worked,
            FlashAnswer::Failed => {
                self.fail();
                DeviceTurn::Worked
            }
            FlashAnswer::Off => {
                self.off = true;
                DeviceTurn::Off
            }
        }
    }

    // The next step of the open switch, behind which a job waits, if one is open.
    pub(crate) fn turn_switch(&mut self) -> DeviceTurn
        requires up { IsUp O.making O.entry self.old }
        requires course { is_some self.old.parts.banks.course ≡ true }
        requires idle { work_in self.old.parts.banks.log.tail ≡ None }
        requires behind { IfSome self.old.parts.job (IsBehind self.old.parts.banks) }
        ensures { TurnedTo O.making O.entry result self.old self.new }
    {
        if self.banks.reads_next() {
            self.turn_copy()
        } else {
            self.turn_target()
        }
    }

    // The job that waits for room ends with a failure, and the device is worn out from now on.
    pub(crate) fn turn_worn(&mut self, job: FeeJob) -> DeviceTurn
        requires up { IsUp O.making O.entry self.old }
        requires waits { Waits self.old job }
        requires shut { self.old.parts.banks.course ≡ None }
        requires full { fits_in self.old.reserve self.old.parts.banks job ≡ false }
        requires worn { IsSome self.old.parts.worn ⊎ (is_worn_out self.old.parts.banks.active ≡ true) }
        ensures { TurnedTo O.making O.entry result self.old self.new }
    {
        let _active = self.banks.active();
        self.worn = Some(self.worn.unwrap_or(self.ops));
        self.job = None;
        self.last = JobResult::JobFailed;
        self.given = 0;
        DeviceTurn::Worked
    }

    // A switch begins for the open job, whose record has no room, in memory alone, and then its first erase; behind the last
    // generation none can.
    pub(crate) fn turn_new_switch(&mut self, job: FeeJob) -> DeviceTurn
        requires up { IsUp O.making O.entry self.old }
        requires waits { Waits self.old job }
        requires shut { self.old.parts.banks.course ≡ None }
        requires full { fits_in self.old.reserve self.old.parts.banks job ≡ false }
        requires fresh { self.old.parts.worn ≡ None }
        ensures { TurnedTo O.making O.entry result self.old self.new }
    {
        let _active = self.banks.active();
        match self.banks.begin() {
            BankBegin::Begun => self.turn_switch(),
            BankBegin::WornOut => self.turn_worn(job),
        }
    }
}
