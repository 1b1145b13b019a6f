// The job of a request, from its Ask to its Post.
ghost use Rattle.std.specs.Prelude.{◌≡◌, ◌≤◌, true};
ghost use Rattle.nvm_moves.specs.block_machine.Legal.{HasStore};
ghost use Rattle.nvm_moves.specs.nv_desk.Desk.{state_of};
ghost use Rattle.uds_gateway.specs.Jobs.{HasNone, IsOwn};
ghost use Rattle.uds_gateway.specs.StackCalls.{IsRequested, MakesJob};

use crate::ServeStop;
use crate::turning::turns_to_post;
use nvm_moves::{AskFault, MemDevice, Reply, Request, Stack, SyncCalls, Turned};
use std::alloc::Global;

/// Takes a request of a caller, with all that is told of it.
pub fn ask<D: MemDevice, C: SyncCalls + Drop>(
    alloc: Global,
    caller: u8,
    request: Request,
    stack: &mut Stack<D, C>,
) -> Result<Reply, AskFault>
    requires ready { stack.old.ready ≡ true }
    requires caller { caller ≤ 15 }
    requires store { HasStore stack.old.desk.config request }
    ensures { IsRequested D.told D.clock caller request result stack.old stack.new }
{
    let device = stack.device();
    let _status = device.status();
    stack.ask(alloc, caller, request)
}

/// Asks as caller 0 with no job pending, and makes turns to the Post where that is accepted.
pub fn make_job<D: MemDevice, C: SyncCalls + Drop>(
    alloc: Global,
    asked: Request,
    stack: &mut Stack<D, C>,
) -> Result<Reply, ServeStop>
    requires own { IsOwn asked }
    requires ready { stack.old.ready ≡ true }
    requires none { HasNone (state_of stack.old.desk) }
    ensures job { MakesJob D.told D.clock C.told C.is_store C.looked asked result stack.old stack.new }
    ensures ready { stack.new.ready ≡ true }
{
    match ask(alloc, 0, asked, stack) {
        Ok(reply) => match reply {
            Reply::Accepted => match turns_to_post(stack) {
                Turned::Posted => Ok(Reply::Accepted),
                _ => Err(ServeStop::Off),
            },
            _ => Ok(reply),
        },
        Err(AskFault::NoRoom) => Err(ServeStop::NoRoom),
        Err(AskFault::Memory) => Err(ServeStop::Memory),
    }
}
