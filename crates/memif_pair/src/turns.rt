// A turn of one of two devices.
ghost use Rattle.std.specs.Prelude.{Bool};
ghost use Rattle.memif.specs.Calls.{Turns};
ghost use Rattle.memif_pair.specs.Together.{PairGoes, PairTurns};
ghost use Rattle.memif_pair.specs.Laws.{FirstTicks, FirstTurns, Goes, OwnTurns, SecondTicks, SecondTurns};

use crate::calls::is_busy;
use memif::{DeviceTurn, MemDevice};
use nv_base::Trace;

/// A turn of the first device, beside the second one. Where a job of the first is open, it is a turn of the pair, whose clock
/// counts the operations of both; so it is where no job is open, and the second one has no work of its own.
pub fn first_turns<A: MemDevice, B: MemDevice>(first: &mut A, second: &B) -> DeviceTurn
    ensures ticks { FirstTicks result (A.told first.old) (A.clock first.old) (A.told first.new) (A.clock first.new) (B.told second.now) (B.clock second.now) }
    ensures turns { FirstTurns result (A.told first.old) (A.clock first.old) (A.told first.new) (A.clock first.new) (B.told second.now) (B.clock second.now) }
    ensures own { OwnTurns result (A.told first.old) (A.clock first.old) (A.told first.new) (A.clock first.new) (B.told second.now) (B.clock second.now) }
{
    // behind it what holds of the second device at any time is known
    let _status = second.status();
    first.turn()
}

/// A turn of the second device with a job open, beside the first one, is a turn of the pair: one of its second part.
pub fn second_turns<A: MemDevice, B: MemDevice>(first: &A, second: &mut B) -> DeviceTurn
    ensures ticks { SecondTicks result (A.told first.now) (A.clock first.now) (B.told second.old) (B.clock second.old) (B.told second.new) (B.clock second.new) }
    ensures turns { SecondTurns result (A.told first.now) (A.clock first.now) (B.told second.old) (B.clock second.old) (B.told second.new) (B.clock second.new) }
{
    // behind it what holds of the first device at any time is known
    let _status = first.status();
    second.turn()
}

// A turn of a device, of the second one or the first. The course notes which it was where an operation was counted: by this device's
// own count, since the sum of both stands still at its end.
fn turn_noted<D: MemDevice>(device: &mut D, second: bool, course: &mut Trace<bool>) -> DeviceTurn
    ensures turns { Turns result (D.told device.old) (D.clock device.old) (D.told device.new) (D.clock device.new) }
    ensures goes { Goes second (D.told device.old).ops (D.told device.new).ops course.old.items course.new.items }
{
    let before = device.ops();
    let answer = device.turn();
    if before < device.ops() {
        *course = course.with(&second);
    }
    answer
}

/// A turn of the pair: of the second device where a job of that is open, else of the first one. The course goes on by the operation
/// that it made, if it made one.
pub fn turn<A: MemDevice, B: MemDevice>(
    first: &mut A,
    second: &mut B,
    course: &mut Trace<bool>,
) -> DeviceTurn
    ensures goes { PairGoes (A.told first.old) (B.told second.old) (A.told first.new) (B.told second.new) course.old.items course.new.items }
    ensures turns { (last : Bool) → PairTurns result last (A.told first.old) (A.clock first.old) (B.told second.old) (B.clock second.old) (A.told first.new) (A.clock first.new) (B.told second.new) (B.clock second.new) }
{
    let _first = first.status();
    let _second = second.status();
    if is_busy(second) {
        turn_noted(second, true, course)
    } else {
        turn_noted(first, false, course)
    }
}
