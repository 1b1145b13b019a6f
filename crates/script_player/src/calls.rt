// The calls of a stack whose application stores in memory, as a player sees them. What is told of its device behind a call is looked at there.
ghost use Rattle.std.specs.Prelude.{◌≡◌, ◌≤◌, [], true, false, Some, IsSome, IfOk, OnOk, OnErr, length};
ghost use Rattle.uds_gateway.specs.block_machine.Legal.{HasStore};
ghost use Rattle.uds_gateway.specs.block_machine.Reply.{reply_of};
ghost use Rattle.uds_gateway.specs.memif.Told.{Part, PartTold};
ghost use Rattle.nvm_script.specs.Rules.{sync_length_of};
ghost use Rattle.script_player.specs.Told.{state_of};
ghost use Rattle.script_player.specs.Calls.{Asks, Turns, Restarts, Arms, Stores, Refuses};
ghost use Rattle.uds_gateway.specs.nvm_moves.Moved.{MovesBy};
ghost use Rattle.script_player.specs.Paying.{AskMoves, LastsOn, StartMoves, TurnMoves};
ghost use Rattle.script_player.specs.PlainTold.{told_by};
ghost use Rattle.script_player.specs.PlainKept.{kept_by, starts_found};
ghost use Rattle.script_player.specs.PlainPaying.{seen_by};

use std::alloc::Global;
use uds_gateway::{AskFault, FoundAnswer, MemDevice, PlainSync, Reply, Request, Stack, Turned};

/// Takes a request of a caller.
pub fn ask<D: MemDevice>(
    alloc: Global,
    caller: u8,
    request: Request,
    stack: &mut Stack<D, PlainSync>,
) -> Result<Reply, AskFault>
    requires ready { stack.old.ready ≡ true }
    requires caller { caller ≤ 15 }
    requires store { HasStore stack.old.desk.config request }
    ensures asks { Asks caller request result (told_by D.told stack.old) (told_by D.told stack.new) }
    ensures replies { IfOk result (λ reply. reply ≡ reply_of stack.old.desk.config stack.old.desk.cap (state_of (told_by D.told stack.old)) request) }
    ensures moved { OnOk result (AskMoves (seen_by D.told D.clock stack.old) (seen_by D.told D.clock stack.new) (told_by D.told stack.old) (told_by D.told stack.new)) }
    ensures lasts { OnErr result (LastsOn (seen_by D.told D.clock stack.old) (seen_by D.told D.clock stack.new)) }
    ensures keeps { (before : Part → PartTold) → kept_by D.told D.clock stack.old before → kept_by D.told D.clock stack.new before }
    ensures starts { starts_found D.told stack.old → starts_found D.told stack.new }
{
    uds_gateway::ask(alloc, caller, request, stack)
}

/// One turn of the main function.
pub fn turn<D: MemDevice>(stack: &mut Stack<D, PlainSync>) -> Turned
    requires { stack.old.ready ≡ true }
    ensures turns { Turns result (told_by D.told stack.old) (told_by D.told stack.new) }
    ensures moved { TurnMoves (seen_by D.told D.clock stack.old) (seen_by D.told D.clock stack.new) (told_by D.told stack.old) (told_by D.told stack.new) }
    ensures keeps { (before : Part → PartTold) → kept_by D.told D.clock stack.old before → kept_by D.told D.clock stack.new before }
    ensures starts { starts_found D.told stack.old → starts_found D.told stack.new }
{
    uds_gateway::turn(stack)
}

/// A further start-up.
pub fn restart<D: MemDevice>(alloc: Global, stack: &mut Stack<D, PlainSync>) -> FoundAnswer
    ensures restarts { Restarts result (told_by D.told stack.old) (told_by D.told stack.new) }
    ensures moved { StartMoves result (seen_by D.told D.clock stack.old) (seen_by D.told D.clock stack.new) (told_by D.told stack.old) (told_by D.told stack.new) }
    ensures keeps { (before : Part → PartTold) → kept_by D.told D.clock stack.old before → kept_by D.told D.clock stack.new before }
    ensures starts { stack.old.ready ≡ true → starts_found D.told stack.old → starts_found D.told stack.new }
{
    let answer = stack.restart(alloc);
    let behind = stack.device();
    let _status = behind.status();
    answer
}

/// Plans a power cut of the device's flash at its nth changing operation from now, with so many bytes of it done.
pub fn arm<D: MemDevice>(nth: u32, keep: u32, stack: &mut Stack<D, PlainSync>)
    requires { stack.old.ready ≡ true }
    ensures arms { Arms nth keep (told_by D.told stack.old) (told_by D.told stack.new) }
    ensures moved { MovesBy false [] (seen_by D.told D.clock stack.old) (seen_by D.told D.clock stack.new) }
    ensures keeps { (before : Part → PartTold) → kept_by D.told D.clock stack.old before → kept_by D.told D.clock stack.new before }
    ensures starts { starts_found D.told stack.old → starts_found D.told stack.new }
{
    let _device = stack.device();
    stack.arm(0, nth, keep);
}

/// The application stores a content of a synchronized block. Answers the store's number.
pub fn store<D: MemDevice>(block: u16, content: &[u8], stack: &mut Stack<D, PlainSync>) -> u64
    requires { sync_length_of stack.old.desk.config block ≡ Some (length content.now) }
    ensures stores { Stores block content.now result (told_by D.told stack.old) (told_by D.told stack.new) }
    ensures moved { MovesBy false [] (seen_by D.told D.clock stack.old) (seen_by D.told D.clock stack.new) }
    ensures keeps { (before : Part → PartTold) → kept_by D.told D.clock stack.old before → kept_by D.told D.clock stack.new before }
    ensures starts { starts_found D.told stack.old → starts_found D.told stack.new }
{
    let _device = stack.device();
    stack.store(block, content)
}

/// So many next copies of a synchronized block are refused.
pub fn refuse<D: MemDevice>(block: u16, count: u32, stack: &mut Stack<D, PlainSync>)
    requires { IsSome (sync_length_of stack.old.desk.config block) }
    ensures refuses { Refuses block count (told_by D.told stack.old) (told_by D.told stack.new) }
    ensures moved { MovesBy false [] (seen_by D.told D.clock stack.old) (seen_by D.told D.clock stack.new) }
    ensures keeps { (before : Part → PartTold) → kept_by D.told D.clock stack.old before → kept_by D.told D.clock stack.new before }
    ensures starts { starts_found D.told stack.old → starts_found D.told stack.new }
{
    let _device = stack.device();
    stack.refuse(block, count);
}
