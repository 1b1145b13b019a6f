// The wait for the end of a job.
ghost use Rattle.std.specs.Prelude.{◌≡◌, ◌≤◌, true, length};
ghost use Rattle.turn_gate.specs.Pass.{knows};
ghost use Rattle.driver_moves.specs.nvm_shared.Passes.{IsUserOf};
ghost use Rattle.nvm_callers.specs.Calls.{HasPolled, IsOver};

use driver_moves::nvm_shared::{Shared, StackPass};
use driver_moves::{ReqResult, result_code};

// The status of the power's word from an Off on.
const POWER_IS_OFF: u8 = 1;

/// Polls once, and tells whether a wait is over: the block isn't PENDING, or the power is off. It never takes the lock.
pub fn is_over(shared: &Shared, pass: &mut StackPass, block: u16) -> bool
    requires own { IsUserOf shared.now pass.old }
    requires block { block ≤ 512 }
    requires configured { block ≤ length shared.now.terms.config.blocks }
    ensures own { IsUserOf shared.now pass.new }
    ensures polled { HasPolled (knows pass.old) (knows pass.new) }
    ensures over { result ≡ true → IsOver shared.now.terms block (knows pass.new) }
{
    let polled = shared.poll(pass, block);
    if polled.status != result_code(ReqResult::Pending) {
        return true;
    }
    let power = shared.poll_off(pass);
    power.status == POWER_IS_OFF
}
