// A start-up.
ghost use Rattle.std.specs.Prelude.{◌≡◌, ◌≤◌, ◌<◌, ◌+◌, length, false, OnOk, OnErr, Ok};
ghost use Rattle.memif.specs.Told.{is_open};
ghost use Rattle.memif.specs.Calls.{InOrder};
ghost use Rattle.memif.specs.Trials.{Lasts};
ghost use Rattle.nv_recorder.specs.FoundMarks.{found_in, numbers_of};
ghost use Rattle.nvm_device_laws.specs.Turn.{StartUpsKeep, StaysDown};
ghost use Rattle.nvm_found.specs.Found.{FailsToFind, Finds, FindsKeep, HasFault, IsRestarted, IsUp, ReadAtOnce};
ghost use Rattle.nvm_found.specs.Places.{FirstHeld, IsReady, LeavesRead, ReadsOn};

use crate::place::find_at;
use memif::{MemDevice, StartFault};
use nv_recorder::FoundMarks;

/// Starts a device of these numbers up, and finds the mark of each: a content by one read, in ascending order. It takes
/// no memory. At Err a fault was counted.
pub fn find<D: MemDevice>(found: &mut FoundMarks, device: &mut D) -> Result<(), StartFault>
    requires { numbers_of found.old ≡ (D.told device.old).fixed.numbers }
    ensures numbers { numbers_of found.new ≡ numbers_of found.old }
    ensures room { found.new.room ≡ found.old.room }
    ensures found { OnOk result (Finds (found_in found.new) (D.told device.old) (D.told device.new)) }
    ensures failed { OnErr result (FailsToFind (D.told device.old) (D.told device.new)) }
    ensures order { InOrder (D.told device.new) (D.clock device.new) }
    ensures lasts { Lasts (D.told device.old) (D.clock device.old) (D.told device.new) (D.clock device.new) }
    ensures keeps { FindsKeep result (found_in found.new) (D.told device.old) (D.clock device.old) (D.told device.new) (D.clock device.new) }
{
    let answer = find_all(device, found);
    let _status = device.status();
    let _count = found.len();
    answer
}

// Starts the device up, and finds the mark of each place.
fn find_all<D: MemDevice>(device: &mut D, found: &mut FoundMarks) -> Result<(), StartFault>
    requires numbers { numbers_of found.old ≡ (D.told device.old).fixed.numbers }
    ensures numbers { numbers_of found.new ≡ numbers_of found.old }
    ensures room { found.new.room ≡ found.old.room }
    ensures at_rest { is_open (D.told device.new).stand ≡ false }
    ensures up { OnOk result (IsUp (D.told device.old) (D.told device.new)) }
    ensures left { OnOk result (ReadAtOnce (D.told device.old).fixed → LeavesRead (D.told device.old) (D.told device.new)) }
    ensures held { OnOk result (FirstHeld (D.told device.new) (length found.new.places) found.new.places) }
    ensures keeps { OnOk result (StartUpsKeep (Ok tt) (D.told device.old) (D.clock device.old) (D.told device.new) (D.clock device.new)) }
    ensures failed { OnErr result (IsRestarted (D.told device.old) (D.told device.new)) }
    ensures fault { OnErr result (HasFault (D.told device.old) (D.told device.new)) }
    ensures down { StaysDown (D.told device.old) (D.clock device.old) (D.told device.new) (D.clock device.new) }
    ensures lasts { Lasts (D.told device.old) (D.clock device.old) (D.told device.new) (D.clock device.new) }
{
    device.start()?;
    read_all(device, found)
}

// Finds the mark of each place at a device that was started up.
fn read_all<D: MemDevice>(device: &mut D, found: &mut FoundMarks) -> Result<(), StartFault>
    requires numbers { numbers_of found.old ≡ (D.told device.old).fixed.numbers }
    requires ready { IsReady (D.told device.old) }
    ensures numbers { numbers_of found.new ≡ numbers_of found.old }
    ensures room { found.new.room ≡ found.old.room }
    ensures ready { IsReady (D.told device.new) }
    ensures reads { ReadsOn (D.told device.old) (D.clock device.old) (D.told device.new) (D.clock device.new) }
    ensures held { OnOk result (FirstHeld (D.told device.new) (length found.new.places) found.new.places) }
    ensures fault { OnErr result ((begun : _) → IsUp begun (D.told device.old) → HasFault begun (D.told device.new)) }
{
    for i in 0..found.len() {
        find_at(found, i, device)?;
    }
    Ok(())
}
