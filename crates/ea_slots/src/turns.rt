// The turns of a device.
ghost use Rattle.ea_told.specs.Inside.{IsSound};
ghost use Rattle.ea_told.specs.Turn.{TurnsJob};

use crate::Origin;
use crate::parts::EaParts;
use fls_model::Flash;
use memif::DeviceTurn;
use nv_base::DeviceOp;

impl<F: Flash, O: Origin> EaParts<F, O> {
    /// Does a step of the open job, by at most one flash call.
    pub fn turn(&mut self) -> DeviceTurn
        requires { IsSound O.making O.entry self.old }
        ensures { TurnsJob self.old.job result self.old self.new }
    {
        let Some(job) = self.job else {
            return DeviceTurn::Idle;
        };
        if self.off {
            return DeviceTurn::Off;
        }
        match job.op {
            DeviceOp::Read => self.turn_read(job),
            _ => self.turn_write(job),
        }
    }
}
