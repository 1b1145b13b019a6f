// The cancel of a job.
ghost use Rattle.std.specs.Prelude.{◌≡◌, false, true, is_some};
ghost use Rattle.memif.specs.Told.{is_urgent};
ghost use Rattle.memif.specs.Calls.{Cancels};
ghost use Rattle.fee_laws.specs.fee_log.Log.{work_in};
ghost use Rattle.fee_laws.specs.Inside.{IsActiveOf};
ghost use Rattle.fee_laws.specs.Parts.{without_work};
ghost use Rattle.fee_core.specs.Whole.{Sound, told_in, clock_in};

use crate::Origin;
use crate::parts::FeeParts;
use crate::room::is_appending;
use fee_laws::Banks;
use fls_model::Flash;
use memif::JobResult;

// Gives up a record in work.
fn give_up(banks: &mut Banks)
    requires active { IsActiveOf banks.old banks.old.active }
    requires some { is_some (work_in banks.old.log.tail) ≡ true → is_some banks.old.active ≡ true }
    ensures { banks.new ≡ without_work banks.old }
{
    if is_appending(banks) {
        banks.append_abandon();
    }
}

impl<F: Flash, O: Origin> FeeParts<F, O> {
    /// Ends an open job with `JobCanceled`, and gives its record up. The settled marks stay.
    pub fn cancel(&mut self)
        requires sound { Sound O.making O.entry self.old }
        requires urgent { is_urgent (told_in O.making O.entry self.old).stand ≡ false }
        ensures sound { Sound O.making O.entry self.new }
        ensures cancels { Cancels (told_in O.making O.entry self.old) (clock_in O.making O.entry self.old) (told_in O.making O.entry self.new) (clock_in O.making O.entry self.new) }
    {
        if self.job.is_none() {
            return;
        }
        let _active = self.banks.active();
        give_up(&mut self.banks);
        self.job = None;
        self.last = JobResult::JobCanceled;
        self.given = 0;
    }
}
