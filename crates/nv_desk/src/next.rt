// What the desk turns to next.
ghost use Rattle.block_machine.specs.Next.{next_of};
ghost use Rattle.nv_desk_state.specs.Next.{IsNextEntry};
ghost use Rattle.nv_desk.specs.Desk.{state_of};

use crate::Desk;
use nv_desk_state::NextEntry;

impl Desk {
    /// What the manager turns to next. Nothing changes.
    pub fn next(&self) -> NextEntry
        ensures { IsNextEntry result (next_of self.now.config (state_of self.now)) }
    {
        self.kept.next(&self.config)
    }
}
