// A device that tells of its first turn.
ghost use Rattle.std.specs.Prelude.{◌≡◌};

use crate::flags::Flags;
use nvm_laws::memif::{
    DeviceRefusal, DeviceTurn, JobResult, MemDevice, MemStatus, PlainMark, PlainStore, StartFault,
};
use nvm_laws::{DeviceNumber, DeviceOp};

/// A device in memory whose first turn sets the first flag, and looks for the second.
#[derive(Drop)]
pub(crate) struct FlaggedDevice<'a> {
    device: PlainStore,
    flags: &'a Flags,
    turns: u64,
}

impl<'a> FlaggedDevice<'a> {
    pub(crate) fn over(device: PlainStore, flags: &'a Flags) -> FlaggedDevice<'a>
        ensures { result.device ≡ device }
    {
        FlaggedDevice {
            device,
            flags,
            turns: 0,
        }
    }
}

impl<'a> MemDevice for FlaggedDevice<'a> {
    ghost told = { λ d. d.device };

    ghost use Rattle.nvm_laws.specs.memif.Plain.{no_clock};

    ghost clock = { λ d. no_clock };

    fn start(&mut self) -> Result<(), StartFault> {
        self.device.start()
    }

    fn start_read(&mut self, number: DeviceNumber, length: u16) -> Result<(), DeviceRefusal> {
        self.device.start_read(number, length)
    }

    fn start_write(
        &mut self,
        number: DeviceNumber,
        content: &[u8],
        urgent: bool,
    ) -> Result<(), DeviceRefusal> {
        self.device.start_write(number, content, urgent)
    }

    fn start_invalidate(&mut self, number: DeviceNumber) -> Result<(), DeviceRefusal> {
        self.device.start_invalidate(number)
    }

    fn start_erase(&mut self, number: DeviceNumber) -> Result<(), DeviceRefusal> {
        self.device.start_erase(number)
    }

    fn cancel(&mut self) {
        self.device.cancel();
    }

    fn arm(&mut self, which: u8, nth: u32, keep: u32) {
        self.device.arm(which, nth, keep);
    }

    fn turn(&mut self) -> DeviceTurn {
        if self.turns == 0 {
            self.turns = 1;
            self.flags.set_first();
            self.flags.look_for_second();
        }
        self.device.turn()
    }

    fn take_data(&self) -> &[u8] {
        self.device.take_data()
    }

    fn mark_kind(&self, number: DeviceNumber) -> Option<PlainMark> {
        self.device.mark_kind(number)
    }

    fn status(&self) -> MemStatus {
        self.device.status()
    }

    fn result(&self) -> JobResult {
        self.device.result()
    }

    fn ops(&self) -> u64 {
        self.device.ops()
    }

    fn faults(&self) -> u64 {
        self.device.faults()
    }

    fn left(&self) -> u64 {
        self.device.left()
    }

    fn most(&self, number: DeviceNumber, op: DeviceOp) -> u64 {
        self.device.most(number, op)
    }
}
