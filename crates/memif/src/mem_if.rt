// The memory interface: two devices by number.
ghost use Rattle.std.specs.Prelude.{◌≡◌, ◌≤◌, ◌<◌, length, None, Some, Err, false};
ghost use Rattle.nv_base.specs.declared.mark.Mark.TheVariants as mark;
ghost use Rattle.memif.specs.Told.{IsConfigured, figures_at, most_of, status_of, result_of, given_by, ops_of, faults_of, is_urgent};
ghost use Rattle.memif.specs.Calls.{StartsUp, Accepts, Cancels, Arms, Turns, IsKind, InOrder};
ghost use Rattle.memif.specs.MemIf.{OnDevice, OfDevice};

use crate::{DeviceRefusal, DeviceTurn, JobResult, MemDevice, MemStatus, PlainMark, StartFault};
use nv_base::{DeviceNumber, DeviceOp};

/// Two devices, 0 and 1 (SWS Memory Abstraction Interface). Each call is that of the device that it names, and leaves
/// the other one as it was. A start of a job on another device is refused; the other calls ask for 0 or 1.
#[derive(Drop)]
pub struct MemIf<A, B> {
    pub first: A,
    pub second: B,
}

impl<A: MemDevice, B: MemDevice> MemIf<A, B> {
    /// Device 0 and device 1.
    pub fn make(first: A, second: B) -> MemIf<A, B>
        ensures first { result.first ≡ first }
        ensures second { result.second ≡ second }
    {
        MemIf { first, second }
    }

    /// Gives the devices back.
    pub fn into_parts(self) -> (A, B)
        ensures first { result.0 ≡ self.first }
        ensures second { result.1 ≡ self.second }
    {
        let MemIf { first, second } = self;
        (first, second)
    }

    /// Starts the device up.
    pub fn start(&mut self, device: u8) -> Result<(), StartFault>
        requires { device < 2 }
        ensures { OnDevice device (StartsUp result) A.told A.clock B.told B.clock self.old self.new }
    {
        match device {
            0 => self.first.start(),
            _ => self.second.start(),
        }
    }

    /// Takes a read of a number's content.
    pub fn start_read(
        &mut self,
        device: u8,
        number: DeviceNumber,
        length: u16,
    ) -> Result<(), DeviceRefusal>
        ensures device { OnDevice device (Accepts (record { job = record { number = number.0; mark = None; urgent = false }; length = Some length }) result) A.told A.clock B.told B.clock self.old self.new }
        ensures none { 2 ≤ device → result ≡ Err DeviceRefusal.BadNumber }
    {
        match device {
            0 => self.first.start_read(number, length),
            1 => self.second.start_read(number, length),
            _ => Err(DeviceRefusal::BadNumber),
        }
    }

    /// Takes a write of a content.
    pub fn start_write(
        &mut self,
        device: u8,
        number: DeviceNumber,
        content: &[u8],
        urgent: bool,
    ) -> Result<(), DeviceRefusal>
        ensures device { OnDevice device (Accepts (record { job = record { number = number.0; mark = Some (mark.Content content.now); urgent = urgent }; length = Some (length content.now) }) result) A.told A.clock B.told B.clock self.old self.new }
        ensures none { 2 ≤ device → result ≡ Err DeviceRefusal.BadNumber }
    {
        match device {
            0 => self.first.start_write(number, content, urgent),
            1 => self.second.start_write(number, content, urgent),
            _ => Err(DeviceRefusal::BadNumber),
        }
    }

    /// Takes an invalidation.
    pub fn start_invalidate(
        &mut self,
        device: u8,
        number: DeviceNumber,
    ) -> Result<(), DeviceRefusal>
        ensures device { OnDevice device (Accepts (record { job = record { number = number.0; mark = Some mark.Invalid; urgent = false }; length = None }) result) A.told A.clock B.told B.clock self.old self.new }
        ensures none { 2 ≤ device → result ≡ Err DeviceRefusal.BadNumber }
    {
        match device {
            0 => self.first.start_invalidate(number),
            1 => self.second.start_invalidate(number),
            _ => Err(DeviceRefusal::BadNumber),
        }
    }

    /// Takes an erase.
    pub fn start_erase(&mut self, device: u8, number: DeviceNumber) -> Result<(), DeviceRefusal>
        ensures device { OnDevice device (Accepts (record { job = record { number = number.0; mark = Some mark.Erased; urgent = false }; length = None }) result) A.told A.clock B.told B.clock self.old self.new }
        ensures none { 2 ≤ device → result ≡ Err DeviceRefusal.BadNumber }
    {
        match device {
            0 => self.first.start_erase(number),
            1 => self.second.start_erase(number),
            _ => Err(DeviceRefusal::BadNumber),
        }
    }

    /// Ends an open job, which isn't urgent.
    pub fn cancel(&mut self, device: u8)
        requires device { device < 2 }
        requires job { OfDevice device (λ d c. is_urgent d.stand ≡ false) A.told A.clock B.told B.clock self.old }
        ensures { OnDevice device (Cancels) A.told A.clock B.told B.clock self.old self.new }
    {
        match device {
            0 => self.first.cancel(),
            _ => self.second.cancel(),
        }
    }

    /// Plans a power cut of a flash of the device, where it has one.
    pub fn arm(&mut self, device: u8, which: u8, nth: u32, keep: u32)
        requires { device < 2 }
        ensures { OnDevice device (Arms which nth keep) A.told A.clock B.told B.clock self.old self.new }
    {
        match device {
            0 => self.first.arm(which, nth, keep),
            _ => self.second.arm(which, nth, keep),
        }
    }

    /// Makes a turn of the device.
    pub fn turn(&mut self, device: u8) -> DeviceTurn
        requires { device < 2 }
        ensures { OnDevice device (Turns result) A.told A.clock B.told B.clock self.old self.new }
    {
        match device {
            0 => self.first.turn(),
            _ => self.second.turn(),
        }
    }

    /// Lends the content that the device's last job read.
    pub fn take_data(&self, device: u8) -> &[u8]
        requires { device < 2 }
        ensures { OfDevice device (λ d c. result.now ≡ given_by d.stand) A.told A.clock B.told B.clock self.now }
    {
        match device {
            0 => self.first.take_data(),
            _ => self.second.take_data(),
        }
    }

    /// What a number holds, without its content.
    pub fn mark_kind(&self, device: u8, number: DeviceNumber) -> Option<PlainMark>
        requires { device < 2 }
        ensures { OfDevice device (λ d c. IsKind d number.0 result) A.told A.clock B.told B.clock self.now }
    {
        match device {
            0 => self.first.mark_kind(number),
            _ => self.second.mark_kind(number),
        }
    }

    /// What the device is at.
    pub fn status(&self, device: u8) -> MemStatus
        requires { device < 2 }
        ensures { OfDevice device (λ d c. (result ≡ status_of d) × InOrder d c) A.told A.clock B.told B.clock self.now }
    {
        match device {
            0 => self.first.status(),
            _ => self.second.status(),
        }
    }

    /// What the device's last job came to.
    pub fn result(&self, device: u8) -> JobResult
        requires { device < 2 }
        ensures { OfDevice device (λ d c. result ≡ result_of d.stand) A.told A.clock B.told B.clock self.now }
    {
        match device {
            0 => self.first.result(),
            _ => self.second.result(),
        }
    }

    /// The changing operations that the device asked for so far.
    pub fn ops(&self, device: u8) -> u64
        requires { device < 2 }
        ensures { OfDevice device (λ d c. result ≡ ops_of d) A.told A.clock B.told B.clock self.now }
    {
        match device {
            0 => self.first.ops(),
            _ => self.second.ops(),
        }
    }

    /// The device's faults so far.
    pub fn faults(&self, device: u8) -> u64
        requires { device < 2 }
        ensures { OfDevice device (λ d c. result ≡ faults_of d) A.told A.clock B.told B.clock self.now }
    {
        match device {
            0 => self.first.faults(),
            _ => self.second.faults(),
        }
    }

    /// The turns that the device's open work takes at most, where no fault comes.
    pub fn left(&self, device: u8) -> u64
        requires { device < 2 }
        ensures { OfDevice device (λ d c. result ≡ d.left) A.told A.clock B.told B.clock self.now }
    {
        match device {
            0 => self.first.left(),
            _ => self.second.left(),
        }
    }

    /// By how much a start of an operation on a number raises `left` at most.
    pub fn most(&self, device: u8, number: DeviceNumber, op: DeviceOp) -> u64
        requires device { device < 2 }
        requires number { OfDevice device (λ d c. IsConfigured d number.0) A.told A.clock B.told B.clock self.now }
        ensures { OfDevice device (λ d c. result ≡ most_of (figures_at d.fixed number.0) op) A.told A.clock B.told B.clock self.now }
    {
        match device {
            0 => self.first.most(number, op),
            _ => self.second.most(number, op),
        }
    }
}
