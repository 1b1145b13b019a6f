// A start-up.
ghost use Rattle.std.specs.Prelude.{◌≡◌, ◌≤◌, ◌+◌, true, false, length, Some, IfErr, IfOk, OnOk, OnErr};
ghost use Rattle.nvm_laws.specs.nv_desk.FoundMarks.{numbers_of};
ghost use Rattle.nvm_laws.specs.memif.Calls.{InOrder};
ghost use Rattle.nvm_laws.specs.memif.Trials.{Lasts};
ghost use Rattle.nvm_found.specs.Found.{FailsToFind};
ghost use Rattle.nvm_core.specs.FoundStart.{IsListed, StartKeeps};
ghost use Rattle.nvm_core.specs.Stack.{HasRooms, IsRoom};

use nvm_found::{FoundMarks, find};
use nvm_laws::Desk;
use nvm_laws::memif::MemDevice;
use std::alloc::{AllocError, Global};

/// Memory for the marks of a start-up, and for a list of them, where entries are kept.
pub fn room_for(alloc: Global, desk: &Desk) -> Result<FoundMarks, AllocError>
    ensures { IfOk result (λ room. IsRoom desk.now room) }
{
    let lengths = desk.config().all_lengths(alloc)?;
    let listed = if desk.keeps_entries() {
        lengths.len()
    } else {
        0
    };
    FoundMarks::make(alloc, &lengths, listed)
}

/// Starts the device up, and adds the entry of what it found. It takes no memory. Where entries are counted, memory for a further
/// start-up is handed back. At Err a fault of the device was counted, nothing is added, and the memory is handed back.
pub fn start_up<D: MemDevice>(
    desk: &mut Desk,
    room: FoundMarks,
    device: &mut D,
) -> Result<Option<FoundMarks>, FoundMarks>
    requires fits { length desk.old.entries + 2 ≤ desk.old.cap }
    requires prepared { desk.old.prepared ≡ length desk.old.entries }
    requires room { IsRoom desk.old room }
    requires numbers { numbers_of room ≡ (D.told device.old).fixed.numbers }
    ensures listed { OnOk result (IsListed desk.old desk.new (D.told device.old) (D.told device.new)) }
    ensures further { IfOk result (λ back. HasRooms desk.new back true) }
    ensures desk { OnErr result (desk.new ≡ desk.old) }
    ensures failed { OnErr result (FailsToFind (D.told device.old) (D.told device.new)) }
    ensures room { IfErr result (λ again. HasRooms desk.new (Some again) false) }
    ensures lasts { Lasts (D.told device.old) (D.clock device.old) (D.told device.new) (D.clock device.new) }
    ensures order { InOrder (D.told device.new) (D.clock device.new) }
    ensures keeps { StartKeeps result desk.old desk.new (D.told device.old) (D.clock device.old) (D.told device.new) (D.clock device.new) }
{
    let mut room = room;
    match find(&mut room, device) {
        Ok(()) => Ok(desk.start_up(room, device.ops())),
        Err(_) => Err(room),
    }
}
