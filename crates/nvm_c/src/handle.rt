// What C holds of a unit.
ghost use Rattle.std.specs.Prelude.{◌≡◌, Option, None};
ghost use Rattle.nvm_c.specs.Held.{Kept, held, kept_coded, state_in, CanRun, Ran};
ghost use Rattle.nvm_c.specs.Work.{Hands};
ghost use Rattle.nvm_c.specs.declared.work.UnitWork.TheVariants as UnitWork;

use crate::room::Room;
use crate::unit::LentUnit;
use crate::work::{Outcome, Task, UnitWork, serve};
use std::alloc::Global;
use std::marker::{Brand, Model};
use std::mem::replace;
use std::ptr::null_mut;

/// Null, which is how C begins one; else the unit that lies there, and what it was opened with.
#[repr(C)]
#[derive(Drop)]
pub struct Handle {
    at: *mut u8,
    pub ghost kept: { Option Kept } by { kept_coded },
}

impl Model for Handle {
    ghost also_owns = { λ h. held h.at h.kept };
}

impl Handle {
    // Null.
    fn empty() -> Handle
        ensures { result.kept ≡ None }
    {
        Handle { at: null_mut() }
    }

    // The unit is of a type that its own flash picks, so what is done with it is done at that type.
    #[inline(always)]
    fn run(self, alloc: Global, work: UnitWork<'_>, into: &mut [u8]) -> (Handle, Outcome)
        requires { CanRun self.kept work }
        ensures { Ran self.kept work.entry result.1 result.0.kept × Hands work.entry result.1 (state_in self.kept) into.old into.new }
    {
        let Handle { at } = self;
        let room = Room::<LentUnit<Brand>> {
            at: at as *mut LentUnit<Brand>,
        };
        let served = serve::<Brand>(alloc, room, work, into);
        let Room { at } = served.0;
        (Handle { at: at as *mut u8 }, served.1)
    }
}

/// Does work with the unit of a handle. Who calls it knows which work, and it is a part of its caller: so no work is handed on but what that
/// one needs.
#[inline(always)]
pub(crate) fn work_on(alloc: Global, handle: &mut Handle, work: UnitWork<'_>) -> Outcome
    requires { CanRun handle.old.kept work }
    ensures { Ran handle.old.kept work.entry result handle.new.kept }
{
    let (held, outcome) = replace(handle, Handle::empty()).run(alloc, work, &mut []);
    *handle = held;
    outcome
}

/// Does a task with the unit of a handle that copies something to the caller, to the front of `into`.
#[inline(always)]
pub(crate) fn copy_out(
    alloc: Global,
    handle: &mut Handle,
    task: Task<'_>,
    into: &mut [u8],
) -> Outcome
    requires { CanRun handle.old.kept (UnitWork.Serve task) }
    ensures ran { Ran handle.old.kept (UnitWork.Serve task.entry) result handle.new.kept }
    ensures copied { Hands (UnitWork.Serve task.entry) result (state_in handle.old.kept) into.old into.new }
{
    let work = UnitWork::Serve { task };
    let (held, outcome) = replace(handle, Handle::empty()).run(alloc, work, into);
    *handle = held;
    outcome
}
