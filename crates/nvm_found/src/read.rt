// A read to its end.
ghost use Rattle.std.specs.Prelude.{◌≡◌, Some};
ghost use Rattle.memif.specs.Told.{given_by, is_open, length_of};
ghost use Rattle.nvm_found.specs.Places.{IsReady, ReadComesTo, ReadsOn};

use block_machine::nv_base::DeviceNumber;
use memif::{JobResult, MemDevice};

/// Reads the content of a number at a device that was started up, and tells what the read came to.
pub(crate) fn read<D: MemDevice>(device: &mut D, number: DeviceNumber, length: u16) -> JobResult
    requires ready { IsReady (D.told device.old) }
    requires configured { length_of (D.told device.old).fixed.numbers number.0 ≡ Some length }
    ensures ready { IsReady (D.told device.new) }
    ensures reads { ReadsOn (D.told device.old) (D.clock device.old) (D.told device.new) (D.clock device.new) }
    ensures outcome { ReadComesTo number.0 length (D.told device.old) result (given_by (D.told device.new).stand) (D.told device.new) }
{
    let _taken = device.start_read(number, length);
    while is_pending(device) {
        device.turn();
    }
    device.result()
}

// A job is open.
fn is_pending<D: MemDevice>(device: &D) -> bool
    ensures { result ≡ is_open (D.told device.now).stand }
{
    device.result() == JobResult::JobPending
}
