// The turns of a job, to its Post.
ghost use Rattle.std.specs.Prelude.{◌≡◌, ℕ, suc, true, false};
ghost use Rattle.nvm_moves.specs.block_machine.Words.{Request};
ghost use Rattle.nvm_moves.specs.nv_desk.Desk.{state_of};
ghost use Rattle.uds_gateway.specs.Jobs.{HasOne};
ghost use Rattle.uds_gateway.specs.StackCalls.{IsTurned, MakesTurns};
ghost use Rattle.uds_gateway.specs.Turning.{HasJob, Goes, is_on_way};

use nvm_moves::{MemDevice, Stack, SyncCalls, Turned};

/// One turn of the main function, with all that is told of it.
pub fn turn<D: MemDevice, C: SyncCalls + Drop>(stack: &mut Stack<D, C>) -> Turned
    requires ready { stack.old.ready ≡ true }
    ensures { IsTurned D.told D.clock C.told C.is_store C.looked result stack.old stack.new }
{
    let device = stack.device();
    let _before = device.status();
    let turned = stack.turn();
    let behind = stack.device();
    let _status = behind.status();
    turned
}

/// Makes turns until the one job that is pending is posted, or the power is off.
pub fn turns_to_post<D: MemDevice, C: SyncCalls + Drop>(stack: &mut Stack<D, C>) -> Turned
    requires ready { stack.old.ready ≡ true }
    requires job { HasJob (state_of stack.old.desk) }
    ensures turns { (n : ℕ) × MakesTurns D.told D.clock C.told C.is_store C.looked (suc n) stack.old stack.new }
    ensures goes { (asked : Request) → HasOne asked (state_of stack.old.desk) → Goes asked result stack.old.desk stack.new.desk }
    ensures ends { is_on_way result ≡ false }
    ensures ready { stack.new.ready ≡ true }
{
    let mut turned = turn(stack);
    while is_on_way(turned) {
        turned = turn(stack);
    }
    turned
}

// Whether the job of which this turn was isn't posted yet, and the power is on.
fn is_on_way(turned: Turned) -> bool
    ensures { result ≡ is_on_way turned }
{
    match turned {
        Turned::Posted | Turned::Off => false,
        Turned::Idle | Turned::Worked | Turned::Picked => true,
    }
}
