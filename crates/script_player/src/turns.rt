// Turns of a stack.
ghost use Rattle.std.specs.Prelude.{◌≡◌, ◌<◌, ◌≤◌, ◌||◌, List, IsTrue, true, false};
ghost use Rattle.uds_gateway.specs.script_walks.Words.{Step};
ghost use Rattle.uds_gateway.specs.script_walks.Walk.{is_at_rest};
ghost use Rattle.uds_gateway.specs.memif.Told.{Part, PartTold};
ghost use Rattle.uds_gateway.specs.nv_base.Count.{Rose};
ghost use Rattle.script_player.specs.Told.{state_of, moment_of};
ghost use Rattle.script_player.specs.Calls.{MakesTurn, is_last};
ghost use Rattle.script_player.specs.Kept.{IsKept, MakesTurns, Drains, has_work};
ghost use Rattle.script_player.specs.Paying.{TurnMoves};
ghost use Rattle.script_player.specs.PlainTold.{told_by};
ghost use Rattle.script_player.specs.PlainKept.{kept_by, starts_found};
ghost use Rattle.script_player.specs.PlainPaying.{seen_by};

use crate::calls::turn;
use uds_gateway::{MemDevice, PlainSync, Stack, Turned};

/// Makes so many turns.
pub fn make_turns<D: MemDevice>(stack: &mut Stack<D, PlainSync>, count: u32)
    requires { stack.old.ready ≡ true }
    ensures ready { stack.new.ready ≡ true }
    ensures turns { (before : List Step) → IsKept before (told_by D.told stack.old) → MakesTurns (seen_by D.told D.clock stack.old) (seen_by D.told D.clock stack.new) count before (told_by D.told stack.old) (told_by D.told stack.new) × IsKept before (told_by D.told stack.new) }
    ensures keeps { (before : Part → PartTold) → kept_by D.told D.clock stack.old before → kept_by D.told D.clock stack.new before }
    ensures starts { starts_found D.told stack.old → starts_found D.told stack.new }
{
    for _turn in 0..count {
        turn(stack);
    }
}

/// Makes turns until nothing is left to do or the power is off, or until one without a job in hand in which a fault was
/// counted: no more turns than there was work, and one. Each but the last finds something pending, or open at the device. Without a fault and with the power on nothing is open at the device behind it.
pub fn drain<D: MemDevice>(stack: &mut Stack<D, PlainSync>)
    requires { stack.old.ready ≡ true }
    ensures ready { stack.new.ready ≡ true }
    ensures drains { (before : List Step) → IsKept before (told_by D.told stack.old) → Drains (seen_by D.told D.clock stack.old) (seen_by D.told D.clock stack.new) before (told_by D.told stack.old) (told_by D.told stack.new) × IsKept before (told_by D.told stack.new) }
    ensures at_rest { ¬ Rose (told_by D.told stack.old).faults (told_by D.told stack.new).faults → (state_of (told_by D.told stack.new)).off ≡ false → (told_by D.told stack.new).busy ≡ false }
    ensures keeps { (before : Part → PartTold) → kept_by D.told D.clock stack.old before → kept_by D.told D.clock stack.new before }
    ensures starts { starts_found D.told stack.old → starts_found D.told stack.new }
{
    while !ends_drain(stack) {}
}

// Makes a turn, and tells whether a drain ends with it.
fn ends_drain<D: MemDevice>(stack: &mut Stack<D, PlainSync>) -> bool
    requires { stack.old.ready ≡ true }
    ensures turn { MakesTurn (told_by D.told stack.old) (told_by D.told stack.new) }
    ensures moved { TurnMoves (seen_by D.told D.clock stack.old) (seen_by D.told D.clock stack.new) (told_by D.told stack.old) (told_by D.told stack.new) }
    ensures ends { result ≡ true → IsTrue (is_at_rest (state_of (told_by D.told stack.new)) || (state_of (told_by D.told stack.new)).off) }
    ensures at_rest { result ≡ true → ¬ Rose (told_by D.told stack.old).faults (told_by D.told stack.new).faults → (state_of (told_by D.told stack.new)).off ≡ false → (told_by D.told stack.new).busy ≡ false }
    ensures goes_on { result ≡ false → (told_by D.told stack.new).work < (told_by D.told stack.old).work }
    ensures finds { result ≡ false → IsTrue (has_work (state_of (told_by D.told stack.old)) (moment_of (told_by D.told stack.old))) }
    ensures keeps { (before : Part → PartTold) → kept_by D.told D.clock stack.old before → kept_by D.told D.clock stack.new before }
    ensures starts { starts_found D.told stack.old → starts_found D.told stack.new }
{
    let in_hand = stack.in_hand();
    let faults = stack.faults();
    let turned = turn(stack);
    is_last(turned, in_hand, has_risen(faults, stack.faults()))
}

fn is_last(turned: Turned, in_hand: bool, risen: bool) -> bool
    ensures { result ≡ is_last turned in_hand risen }
{
    match turned {
        Turned::Idle | Turned::Off => true,
        Turned::Worked => !in_hand && risen,
        Turned::Picked | Turned::Posted => false,
    }
}

// Whether a count rose, or stands at its end.
fn has_risen(before: u64, after: u64) -> bool
    ensures rose { result ≡ true → before ≤ after → Rose before after }
    ensures not { result ≡ false → Rose before after → ⊥ }
{
    before < after || before == u64::MAX
}
