// What a start-up found, in what is kept. The start-up itself, and what it asks of the marks, stands in start.rt.
ghost use Rattle.std.specs.Prelude.{◌≡◌, ◌<◌, ◌+◌, [], length, take};
ghost use Rattle.block_machine.specs.State.{State};
ghost use Rattle.block_machine.specs.StartUp.{started_with};
ghost use Rattle.nv_recorder.specs.FoundMarks.{found_in, marks_at};
ghost use Rattle.nv_desk_state.specs.Kept.{Agrees};

use block_machine::block_config::Config;
use block_machine::nv_base::instance_of;
use nv_desk_state::Kept;
use nv_recorder::{FoundMarks, MarkKind};

/// Notes the marks of a start-up, where none was noted so far. It looks at each once.
pub fn note_found(kept: &mut Kept, config: &Config, found: &FoundMarks)
    ensures { (s : State) → Agrees config.now kept.old (started_with config.now s []) → Agrees config.now kept.new (started_with config.now s (found_in found.now)) }
{
    for i in 0..found.len() {
        note_place(kept, config, found, i);
    }
}

// Notes the mark at a place behind those before it, where it isn't erased.
fn note_place(kept: &mut Kept, config: &Config, found: &FoundMarks, i: usize)
    requires { i < length found.now.places }
    ensures { (s : State) → Agrees config.now kept.old (started_with config.now s (marks_at (take i found.now.places)))
        → Agrees config.now kept.new (started_with config.now s (marks_at (take (i + 1) found.now.places))) }
{
    let Some(place) = found.place(i) else {
        return;
    };
    match place.kind {
        MarkKind::Erased => {}
        MarkKind::Content | MarkKind::Invalid => {
            kept.note_mark(config, instance_of(place.number).block);
        }
    }
}
