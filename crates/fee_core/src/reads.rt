// The turn of a read.
ghost use Rattle.std.specs.Prelude.{◌≡◌, Some};
ghost use Rattle.nv_base.specs.declared.job.DeviceOp.TheVariants.{Read};
ghost use Rattle.fee_core.specs.Turning.{IsUp};
ghost use Rattle.fee_core.specs.Whole.{TurnedTo};

use crate::Origin;
use crate::parts::FeeParts;
use fee_image::Place;
use fee_laws::FeeJob;
use fls_model::{Flash, FlashAnswer};
use memif::{DeviceTurn, JobResult};

impl<F: Flash, O: Origin> FeeParts<F, O> {
    // A read ends in its turn: a content takes one flash read, a mark without content none.
    pub(crate) fn turn_read(&mut self, job: FeeJob) -> DeviceTurn
        requires up { IsUp O.making O.entry self.old }
        requires job { self.old.parts.job ≡ Some job }
        requires op { job.op ≡ Read }
        ensures { TurnedTo O.making O.entry result self.old self.new }
    {
        let _active = self.banks.active();
        self.job = None;
        self.given = 0;
        let Some(log) = self.banks.log() else {
            self.last = JobResult::BlockInconsistent;
            return DeviceTurn::Worked;
        };
        match log.find(job.number) {
            Place::Invalid { count: _ } => {
                self.last = JobResult::BlockInvalid;
                DeviceTurn::Worked
            }
            Place::Erased { count: _ } | Place::Unwritten => {
                self.last = JobResult::BlockInconsistent;
                DeviceTurn::Worked
            }
            Place::Content { at, count: _ } => {
                let answer = self.content.read(&mut self.fls, log, job.length, at);
                match answer {
                    FlashAnswer::Done => {
                        self.last = JobResult::JobOk;
                        self.given = job.length;
                        DeviceTurn::Worked
                    }
                    _ => {
                        self.last = JobResult::JobFailed;
                        self.faults = self.faults.saturating_add(1);
                        DeviceTurn::Worked
                    }
                }
            }
        }
    }
}
