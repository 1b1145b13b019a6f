// The device as a memory device.
use crate::{Fee, Origin};
use fls_model::Flash;
use memif::{DeviceRefusal, DeviceTurn, JobResult, MemDevice, MemStatus, PlainMark, StartFault};
use nv_base::{DeviceNumber, DeviceOp};

impl<F: Flash, O: Origin> MemDevice for Fee<F, O> {
    ghost use Rattle.memif.specs.Calls.{Turns};
    ghost use Rattle.fee_laws.specs.fee_told.Device.{told_of};
    ghost use Rattle.fee_laws.specs.fee_told.Turns.{TakesTurn};
    ghost use Rattle.fee_core.specs.Tells.{told_clock};

    ghost told = { told_of };

    ghost clock = { told_clock };

    fn start(&mut self) -> Result<(), StartFault> {
        self.parts.start()
    }

    fn start_read(&mut self, number: DeviceNumber, length: u16) -> Result<(), DeviceRefusal> {
        self.parts.start_read(number, length)
    }

    fn start_write(
        &mut self,
        number: DeviceNumber,
        content: &[u8],
        urgent: bool,
    ) -> Result<(), DeviceRefusal> {
        self.parts.start_write(number, content, urgent)
    }

    fn start_invalidate(&mut self, number: DeviceNumber) -> Result<(), DeviceRefusal> {
        self.parts.start_invalidate(number)
    }

    fn start_erase(&mut self, number: DeviceNumber) -> Result<(), DeviceRefusal> {
        self.parts.start_erase(number)
    }

    fn cancel(&mut self) {
        self.parts.cancel();
    }

    fn arm(&mut self, which: u8, nth: u32, keep: u32) {
        self.parts.arm(which, nth, keep);
    }

    /// Besides, it takes one of the turns that are left, unless a fault is counted or a job fails.
    fn turn(&mut self) -> DeviceTurn
        ensures turn { Turns result (told_of self.old) (told_clock self.old) (told_of self.new) (told_clock self.new) }
        ensures takes { TakesTurn result self.old self.new }
    {
        self.parts.turn()
    }

    fn take_data(&self) -> &[u8] {
        self.parts.take_data()
    }

    fn mark_kind(&self, number: DeviceNumber) -> Option<PlainMark> {
        self.parts.mark_kind(number)
    }

    fn status(&self) -> MemStatus {
        self.parts.status()
    }

    fn result(&self) -> JobResult {
        self.parts.result()
    }

    fn ops(&self) -> u64 {
        self.parts.ops()
    }

    fn faults(&self) -> u64 {
        self.parts.faults()
    }

    fn left(&self) -> u64 {
        self.parts.left()
    }

    fn most(&self, number: DeviceNumber, op: DeviceOp) -> u64 {
        self.parts.most(number, op)
    }
}
