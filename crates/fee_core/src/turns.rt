// The turns of a device.
ghost use Rattle.std.specs.Prelude.{◌≡◌, None};
ghost use Rattle.fee_core.specs.Turning.{IsUp, Waits};
ghost use Rattle.fee_core.specs.Whole.{Sound, TurnedTo};

use crate::Origin;
use crate::parts::FeeParts;
use crate::room::{begins_now, is_appending};
use fee_laws::{FeeJob, Phase};
use fls_model::Flash;
use memif::DeviceTurn;
use nv_base::DeviceOp;

impl<F: Flash, O: Origin> FeeParts<F, O> {
    /// Does a step of the open job, or of the open switch, by at most one flash call.
    pub fn turn(&mut self) -> DeviceTurn
        requires { Sound O.making O.entry self.old }
        ensures { TurnedTo O.making O.entry result self.old self.new }
    {
        let Some(job) = self.job else {
            return self.turn_alone();
        };
        if self.off {
            return DeviceTurn::Off;
        }
        match job.op {
            DeviceOp::Read => self.turn_read(job),
            _ if is_appending(&self.banks) => self.turn_record(job),
            _ => self.turn_waiting(job),
        }
    }

    // A turn without a job: of the open switch, if any.
    fn turn_alone(&mut self) -> DeviceTurn
        requires sound { Sound O.making O.entry self.old }
        requires shut { self.old.parts.job ≡ None }
        ensures { TurnedTo O.making O.entry result self.old self.new }
    {
        if self.banks.phase() == Phase::None {
            return DeviceTurn::Idle;
        }
        if self.off {
            return DeviceTurn::Off;
        }
        self.turn_switch()
    }

    // A turn of a job whose record waits: it begins where it may, and else a switch comes first.
    fn turn_waiting(&mut self, job: FeeJob) -> DeviceTurn
        requires up { IsUp O.making O.entry self.old }
        requires waits { Waits self.old job }
        ensures { TurnedTo O.making O.entry result self.old self.new }
    {
        if begins_now(&self.banks, job, self.reserve) {
            return self.turn_new_record(job);
        }
        if self.banks.phase() != Phase::None {
            return self.turn_switch();
        }
        if self.worn.is_some() {
            return self.turn_worn(job);
        }
        self.turn_new_switch(job)
    }
}
