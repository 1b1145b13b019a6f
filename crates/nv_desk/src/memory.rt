// Memory for entries that come later.
ghost use Rattle.std.specs.Prelude.{◌≡◌, ◌≤◌, ◌<◌, ◌^◌, ◌+◌, false, IsOk, OnOk, option_copied};
ghost use Rattle.nv_recorder.specs.Event.{entry_of};
ghost use Rattle.nv_recorder.specs.Recorder.{keeps};
ghost use Rattle.nv_desk.specs.Rooms.{CanNote, HasPlace, with_entry};

use block_machine::nv_base::Entry;
use nv_recorder::{Event, Recorder};
use std::alloc::{AllocError, Global};

/// Takes the memory of one entry now, and of so many that are reserved.
pub fn take_memory(alloc: Global, history: &mut Recorder, reserved: u32) -> Result<(), AllocError>
    requires { reserved + 1 < 2 ^ 32 }
    ensures same { record history.new { reserved = history.old.reserved } ≡ history.old }
    ensures stays { history.old.reserved ≤ history.new.reserved }
    ensures entries { OnOk result (reserved + 1 ≤ history.new.reserved) }
    ensures counted { keeps history.old.cap ≡ false → IsOk result }
{
    history.reserve(alloc, reserved + 1)
}

/// Adds an entry that memory was taken for.
pub fn add(history: &mut Recorder, entry: Entry)
    requires { HasPlace history.old }
    ensures { history.new ≡ with_entry history.old entry }
{
    history.add(entry);
}

/// Adds an entry of a job that memory was taken for, whose content is lent.
pub fn note(history: &mut Recorder, event: Event, content: Option<&[u8]>)
    requires { CanNote history.old (option_copied content) }
    ensures { history.new ≡ with_entry history.old (entry_of event (option_copied content.entry)) }
{
    history.note(event, content);
}
