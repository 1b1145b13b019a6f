// What is found of one number.
ghost use Rattle.std.specs.Prelude.{◌≡◌, ◌<◌, ◌+◌, length, IfOk, OnOk, OnErr, Some};
ghost use Rattle.memif.specs.Told.{given_by, length_of};
ghost use Rattle.nv_recorder.specs.Event.{mark_of};
ghost use Rattle.nv_recorder.specs.FoundMarks.{numbers_of};
ghost use Rattle.nvm_found.specs.Found.{HasFault, IsUp};
ghost use Rattle.nvm_found.specs.Places.{FirstHeld, HoldsMark, IsReady, ReadsOn};

use crate::read::read;
use block_machine::nv_base::DeviceNumber;
use memif::{JobResult, MemDevice, PlainMark, StartFault};
use nv_recorder::{FoundMarks, MarkKind};

/// Finds the mark of the number at a place, at a device that was started up.
pub(crate) fn find_at<D: MemDevice>(
    found: &mut FoundMarks,
    i: usize,
    device: &mut D,
) -> Result<(), StartFault>
    requires below { i < length found.old.places }
    requires numbers { numbers_of found.old ≡ (D.told device.old).fixed.numbers }
    requires ready { IsReady (D.told device.old) }
    ensures numbers { numbers_of found.new ≡ numbers_of found.old }
    ensures room { found.new.room ≡ found.old.room }
    ensures ready { IsReady (D.told device.new) }
    ensures reads { ReadsOn (D.told device.old) (D.clock device.old) (D.told device.new) (D.clock device.new) }
    ensures held { OnOk result (FirstHeld (D.told device.old) i found.old.places → FirstHeld (D.told device.new) (i + 1) found.new.places) }
    ensures fault { OnErr result ((begun : _) → IsUp begun (D.told device.old) → HasFault begun (D.told device.new)) }
{
    let _count = found.len();
    let Some(place) = found.place(i) else {
        return Ok(());
    };
    let (number, size) = (place.number, place.length);
    let kind = find_kind(device, number, size)?;
    found.hold(i, kind, device.take_data());
    Ok(())
}

// Finds the kind of a number's mark. Where that is a content, the device gives it.
fn find_kind<D: MemDevice>(
    device: &mut D,
    number: DeviceNumber,
    size: u16,
) -> Result<MarkKind, StartFault>
    requires configured { length_of (D.told device.old).fixed.numbers number.0 ≡ Some size }
    requires ready { IsReady (D.told device.old) }
    ensures ready { IsReady (D.told device.new) }
    ensures reads { ReadsOn (D.told device.old) (D.clock device.old) (D.told device.new) (D.clock device.new) }
    ensures held { IfOk result (λ kind. HoldsMark (D.told device.new) number.0 (mark_of kind (Some (given_by (D.told device.new).stand)))) }
    ensures fits { IfOk result (λ kind. kind ≡ MarkKind.Content → length (given_by (D.told device.new).stand) ≡ size) }
    ensures fault { OnErr result ((begun : _) → IsUp begun (D.told device.old) → HasFault begun (D.told device.new)) }
{
    match device.mark_kind(number) {
        Some(PlainMark::Content) => {}
        Some(PlainMark::Invalid) => return Ok(MarkKind::Invalid),
        Some(PlainMark::Erased) | None => return Ok(MarkKind::Erased),
    }
    match read(device, number, size) {
        JobResult::JobOk => Ok(MarkKind::Content),
        JobResult::BlockInvalid => Ok(MarkKind::Invalid),
        JobResult::BlockInconsistent => Ok(MarkKind::Erased),
        _ => Err(StartFault::Fault),
    }
}
