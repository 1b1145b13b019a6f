// A memory device: its calls with their contracts. Who does what they say: PlainStore here (plain_store.rt), and the rooms whose device it is,
// each in its device.rt.
ghost use Rattle.std.specs.Prelude.{◌≡◌, ℕ, length, None, Some, false, true};
ghost use Rattle.nv_base.specs.declared.mark.Mark.TheVariants as mark;
ghost use Rattle.memif.specs.Told.{DeviceTold, given_by, IsConfigured, figures_at, most_of, status_of, result_of, ops_of, faults_of, is_open, is_urgent};
ghost use Rattle.memif.specs.Clock.{Clock};
ghost use Rattle.memif.specs.Calls.{StartsUp, Accepts, Cancels, Arms, Turns, IsKind, InOrder, FreesReady, RoomIsLeft};

use crate::{DeviceRefusal, DeviceTurn, JobResult, MemStatus, PlainMark, StartFault};
use nv_base::{DeviceNumber, DeviceOp};

/// A device that keeps a mark for each of its numbers (SWS Memory Abstraction Interface): one job at a time, done in
/// turns of at most one flash call. No call takes memory. Lengths are in bytes.
pub trait MemDevice {
    /// All that is told of it.
    ghost told: { Self → DeviceTold };

    /// What is told of it by the changing operations of its flash.
    ghost clock: { Self → Clock };

    /// Turns the power on, reads the device and settles each number's mark at what is found. It drops an open job.
    /// `Fault` comes only where a fault was counted; then the device isn't started.
    fn start(&mut self) -> Result<(), StartFault>
        ensures { StartsUp result (told self.old) (clock self.old) (told self.new) (clock self.new) };

    /// Takes a read of a number's content.
    fn start_read(&mut self, number: DeviceNumber, length: u16) -> Result<(), DeviceRefusal>
        ensures { Accepts (record { job = record { number = number.0; mark = None; urgent = false }; length = Some length }) result (told self.old) (clock self.old) (told self.new) (clock self.new) };

    /// Takes a write of a content. An urgent one has room that others leave to it.
    fn start_write(
        &mut self,
        number: DeviceNumber,
        content: &[u8],
        urgent: bool,
    ) -> Result<(), DeviceRefusal>
        ensures { Accepts (record { job = record { number = number.0; mark = Some (mark.Content content.now); urgent = urgent }; length = Some (length content.now) }) result (told self.old) (clock self.old) (told self.new) (clock self.new) };

    /// Takes an invalidation.
    fn start_invalidate(&mut self, number: DeviceNumber) -> Result<(), DeviceRefusal>
        ensures { Accepts (record { job = record { number = number.0; mark = Some mark.Invalid; urgent = false }; length = None }) result (told self.old) (clock self.old) (told self.new) (clock self.new) };

    /// Takes an erase.
    fn start_erase(&mut self, number: DeviceNumber) -> Result<(), DeviceRefusal>
        ensures { Accepts (record { job = record { number = number.0; mark = Some mark.Erased; urgent = false }; length = None }) result (told self.old) (clock self.old) (told self.new) (clock self.new) };

    /// Ends an open job with `JobCanceled`. The settled marks stay.
    fn cancel(&mut self)
        requires { is_urgent (told self.old).stand ≡ false }
        ensures { Cancels (told self.old) (clock self.old) (told self.new) (clock self.new) };

    /// Plans a power cut of the flash of part 0 or 1 at its nth changing operation from now, with so many bytes of it
    /// done, where the device has that flash and the flash can.
    fn arm(&mut self, which: u8, nth: u32, keep: u32)
        ensures { Arms which nth keep (told self.old) (clock self.old) (told self.new) (clock self.new) };

    /// Does a step of the open job, or of the device's own work, by at most one flash call.
    fn turn(&mut self) -> DeviceTurn
        ensures { Turns result (told self.old) (clock self.old) (told self.new) (clock self.new) };

    /// Lends the content that the last job read, none where it was no read or gave none.
    fn take_data(&self) -> &[u8]
        ensures { result.now ≡ given_by (told self.now).stand };

    /// What a number holds, without its content. None exactly where the number isn't configured.
    fn mark_kind(&self, number: DeviceNumber) -> Option<PlainMark>
        ensures { IsKind (told self.now) number.0 result };

    /// What the device is at. It costs the same whatever is open.
    fn status(&self) -> MemStatus
        ensures status { result ≡ status_of (told self.now) }
        ensures order { InOrder (told self.now) (clock self.now) }
        ensures ready { FreesReady (told self.now) (clock self.now) }
        ensures room { RoomIsLeft (told self.now) (clock self.now) };

    /// What the last job came to, `JobPending` exactly while one is open.
    fn result(&self) -> JobResult
        ensures result { result ≡ result_of (told self.now).stand }
        ensures pending { result ≡ JobResult.JobPending → is_open (told self.now).stand ≡ true };

    /// The changing operations of its flashes that it asked for so far. They stand still at their end.
    fn ops(&self) -> u64
        ensures { result ≡ ops_of (told self.now) };

    /// The faults so far. They stand still at their end.
    fn faults(&self) -> u64
        ensures { result ≡ faults_of (told self.now) };

    /// The turns that the open work takes at most, where no fault comes.
    fn left(&self) -> u64
        ensures { result ≡ (told self.now).left };

    /// By how much a start of an operation on a number raises `left` at most.
    fn most(&self, number: DeviceNumber, op: DeviceOp) -> u64
        requires { IsConfigured (told self.now) number.0 }
        ensures { result ≡ most_of (figures_at (told self.now).fixed number.0) op };
}
