// The turn of a read.
ghost use Rattle.std.specs.Prelude.{◌≡◌, Some};
ghost use Rattle.nv_base.specs.declared.job.DeviceOp.TheVariants.{Read};
ghost use Rattle.memif.specs.declared.answer.DeviceTurn.TheVariants as turn;
ghost use Rattle.ea_image.specs.Slots.{other};
ghost use Rattle.ea_told.specs.Device.{state_at};
ghost use Rattle.ea_told.specs.Inside.{IsSound};
ghost use Rattle.ea_told.specs.Turn.{ended_as, ReadsContent, ReadsHead};

use crate::Origin;
use crate::parts::EaParts;
use crate::steps::{head_sector, place_of_page};
use ea_image::Which;
use ea_told::EaJob;
use fee_format::RecordKind;
use fls_model::{Flash, FlashAnswer};
use memif::{DeviceTurn, JobResult};

impl<F: Flash, O: Origin> EaParts<F, O> {
    /// The open job ends with this result, and gives nothing.
    pub(crate) fn end(&mut self, came_to: JobResult)
        ensures { self.new ≡ ended_as came_to self.old }
    {
        self.job = None;
        self.last = came_to;
        self.given = 0;
    }

    // The content of the slot that holds the settled mark, by one flash read.
    fn read_content(&mut self, job: EaJob, which: Which)
        requires sound { IsSound O.making O.entry self.old }
        requires job { self.old.job ≡ Some job }
        requires op { job.op ≡ Read }
        requires which { which ≡ other (state_at self.old.states job.place).memory.target }
        ensures { ReadsContent self.old job self.new }
    {
        self.fls.status();
        let sector = head_sector(job.place, which) + 1;
        let address = place_of_page(self.geometry, sector, 0);
        match self.content.read(&mut self.fls, address, job.length) {
            FlashAnswer::Done => {
                self.end(JobResult::JobOk);
                self.given = job.length;
            }
            _ => {
                self.end(JobResult::JobFailed);
                self.faults = self.faults.saturating_add(1);
            }
        }
    }

    /// A read ends in its turn: a content takes one flash read, a mark without content none.
    pub(crate) fn turn_read(&mut self, job: EaJob) -> DeviceTurn
        requires sound { IsSound O.making O.entry self.old }
        requires job { self.old.job ≡ Some job }
        requires op { job.op ≡ Read }
        ensures turned { result ≡ turn.Worked }
        ensures reads { ReadsHead (state_at self.old.states job.place).memory.settled self.old job self.new }
    {
        let memory = self.states.at(job.place).memory;
        match memory.settled {
            None => self.end(JobResult::BlockInconsistent),
            Some(head) => match head.kind {
                RecordKind::Invalid => self.end(JobResult::BlockInvalid),
                RecordKind::Erased => self.end(JobResult::BlockInconsistent),
                RecordKind::Content => self.read_content(job, memory.target.other()),
            },
        }
        DeviceTurn::Worked
    }
}
