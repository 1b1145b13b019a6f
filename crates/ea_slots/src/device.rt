// The device as a memory device.
use crate::{Ea, Origin};
use fls_model::Flash;
use memif::{DeviceRefusal, DeviceTurn, JobResult, MemDevice, MemStatus, PlainMark, StartFault};
use nv_base::{DeviceNumber, DeviceOp};

impl<F: Flash, O: Origin> MemDevice for Ea<F, O> {
    ghost use Rattle.ea_slots.specs.Whole.{told_in, clock_in};

    ghost told = { λ s. told_in s };

    ghost clock = { λ s. clock_in s };

    fn start(&mut self) -> Result<(), StartFault> {
        self.parts.start()
    }

    fn start_read(&mut self, number: DeviceNumber, length: u16) -> Result<(), DeviceRefusal> {
        let wanted = Some(usize::from(length));
        self.parts
            .take_job(number, DeviceOp::Read, wanted, &[], false)
    }

    fn start_write(
        &mut self,
        number: DeviceNumber,
        content: &[u8],
        urgent: bool,
    ) -> Result<(), DeviceRefusal> {
        let wanted = Some(content.len());
        self.parts
            .take_job(number, DeviceOp::Write, wanted, content, urgent)
    }

    fn start_invalidate(&mut self, number: DeviceNumber) -> Result<(), DeviceRefusal> {
        self.parts
            .take_job(number, DeviceOp::Invalidate, None, &[], false)
    }

    fn start_erase(&mut self, number: DeviceNumber) -> Result<(), DeviceRefusal> {
        self.parts
            .take_job(number, DeviceOp::Erase, None, &[], false)
    }

    fn cancel(&mut self) {
        self.parts.cancel();
    }

    fn arm(&mut self, which: u8, nth: u32, keep: u32) {
        self.parts.arm(which, nth, keep);
    }

    fn turn(&mut self) -> DeviceTurn {
        self.parts.turn()
    }

    fn take_data(&self) -> &[u8] {
        self.parts.take_data()
    }

    fn mark_kind(&self, number: DeviceNumber) -> Option<PlainMark> {
        self.parts.mark_kind(number)
    }

    fn status(&self) -> MemStatus {
        self.parts.status()
    }

    fn result(&self) -> JobResult {
        self.parts.result()
    }

    fn ops(&self) -> u64 {
        self.parts.ops
    }

    fn faults(&self) -> u64 {
        self.parts.faults
    }

    fn left(&self) -> u64 {
        self.parts.left()
    }

    fn most(&self, number: DeviceNumber, op: DeviceOp) -> u64 {
        self.parts.most(number, op)
    }
}
