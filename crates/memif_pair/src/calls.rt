// The calls of a pair that make no operation, each by the same call of its devices.
ghost use Rattle.std.specs.Prelude.{◌≡◌, None, Some, Bool, List, length, false};
ghost use Rattle.nv_base.specs.declared.mark.Mark.TheVariants as mark;
ghost use Rattle.memif.specs.Told.{is_open, is_urgent, status_of};
ghost use Rattle.memif.specs.Calls.{Accepts, Arms, Cancels, FreesReady, InOrder, RoomIsLeft, StartsUp};
ghost use Rattle.memif_pair.specs.Pair.{stand_both, told_both};
ghost use Rattle.memif_pair.specs.Laws.{pair_clock};
ghost use Rattle.memif_pair.specs.Together.{AreTogether, Looks, OfPair, answer_both, noted, status_both};

use memif::{DeviceRefusal, JobResult, MemDevice, MemStatus, StartFault};
use nv_base::DeviceNumber;

/// What the pair is at: not started unless both are, at a job where one of them is, and at work of its own where the first one is.
pub fn status<A: MemDevice, B: MemDevice>(first: &A, second: &B) -> MemStatus
    ensures status { (last : Bool) (course : List Bool) → AreTogether (A.told first.now) (B.told second.now) last course → result ≡ status_of (told_both (A.told first.now) (B.told second.now) last course) }
    ensures order { (last : Bool) (course : List Bool) → AreTogether (A.told first.now) (B.told second.now) last course → InOrder (told_both (A.told first.now) (B.told second.now) last course) (pair_clock (A.clock first.now) (B.told second.now) (B.clock second.now) course) }
    ensures ready { (last : Bool) (course : List Bool) → AreTogether (A.told first.now) (B.told second.now) last course → FreesReady (told_both (A.told first.now) (B.told second.now) last course) (pair_clock (A.clock first.now) (B.told second.now) (B.clock second.now) course) }
    ensures room { (last : Bool) (course : List Bool) → AreTogether (A.told first.now) (B.told second.now) last course → RoomIsLeft (told_both (A.told first.now) (B.told second.now) last course) (pair_clock (A.clock first.now) (B.told second.now) (B.clock second.now) course) }
{
    let one = first.status();
    let two = second.status();
    status_both(one, two)
}

fn status_both(one: MemStatus, two: MemStatus) -> MemStatus
    ensures { result ≡ status_both one two }
{
    match (one, two) {
        (MemStatus::Uninit, _) | (_, MemStatus::Uninit) => MemStatus::Uninit,
        (MemStatus::Busy, _) | (_, MemStatus::Busy) => MemStatus::Busy,
        (one, _) => one,
    }
}

/// Starts both devices up, also where the first one failed.
pub fn start<A: MemDevice, B: MemDevice>(first: &mut A, second: &mut B) -> Result<(), StartFault>
    ensures { (last last_new : Bool) → OfPair (StartsUp result) last last_new (A.told first.old) (A.clock first.old) (B.told second.old) (B.clock second.old) (A.told first.new) (A.clock first.new) (B.told second.new) (B.clock second.new) }
{
    let _first = first.status();
    let _second = second.status();
    let one = first.start();
    let two = second.start();
    answer_both(one, two)
}

// The first one's fault, else the second one's.
fn answer_both(one: Result<(), StartFault>, two: Result<(), StartFault>) -> Result<(), StartFault>
    ensures { result ≡ answer_both one two }
{
    match one {
        Ok(()) => two,
        Err(fault) => Err(fault),
    }
}

/// Plans a power cut of a flash: of the first device's for part 0, of the second one's for part 1.
pub fn arm<A: MemDevice, B: MemDevice>(
    first: &mut A,
    second: &mut B,
    which: u8,
    nth: u32,
    keep: u32,
)
    ensures { (last : Bool) → OfPair (Arms which nth keep) last last (A.told first.old) (A.clock first.old) (B.told second.old) (B.clock second.old) (A.told first.new) (A.clock first.new) (B.told second.new) (B.clock second.new) }
{
    let _first = first.status();
    let _second = second.status();
    if which == 0 {
        first.arm(0, nth, keep);
    } else if which == 1 {
        second.arm(0, nth, keep);
    }
}

/// Ends an open job: that of the device that had the last one.
pub fn cancel<A: MemDevice, B: MemDevice>(first: &mut A, second: &mut B, last: bool)
    requires { is_urgent (stand_both last (A.told first.old).stand (B.told second.old).stand) ≡ false }
    ensures { OfPair Cancels last last (A.told first.old) (A.clock first.old) (B.told second.old) (B.clock second.old) (A.told first.new) (A.clock first.new) (B.told second.new) (B.clock second.new) }
{
    let _first = first.status();
    let _second = second.status();
    if last {
        second.cancel();
    } else {
        first.cancel();
    }
}

/// Takes a read of a number's content, on the device of the number. `last` tells whether the second one had the last job.
pub fn start_read<A: MemDevice, B: MemDevice>(
    first: &mut A,
    second: &mut B,
    last: &mut bool,
    number: DeviceNumber,
    length: u16,
) -> Result<(), DeviceRefusal>
    ensures { OfPair (Accepts (record { job = record { number = number.0; mark = None; urgent = false }; length = Some length }) result)
        last.old last.new (A.told first.old) (A.clock first.old) (B.told second.old) (B.clock second.old) (A.told first.new) (A.clock first.new) (B.told second.new) (B.clock second.new) }
{
    match look(first, second, number) {
        Ok(true) => note(second.start_read(number, length), last, true),
        Ok(false) => note(first.start_read(number, length), last, false),
        Err(refusal) => Err(refusal),
    }
}

/// Takes a write of a content, likewise.
pub fn start_write<A: MemDevice, B: MemDevice>(
    first: &mut A,
    second: &mut B,
    last: &mut bool,
    number: DeviceNumber,
    content: &[u8],
    urgent: bool,
) -> Result<(), DeviceRefusal>
    ensures { OfPair (Accepts (record { job = record { number = number.0; mark = Some (mark.Content content.now); urgent = urgent }; length = Some (length content.now) }) result)
        last.old last.new (A.told first.old) (A.clock first.old) (B.told second.old) (B.clock second.old) (A.told first.new) (A.clock first.new) (B.told second.new) (B.clock second.new) }
{
    match look(first, second, number) {
        Ok(true) => note(second.start_write(number, content, urgent), last, true),
        Ok(false) => note(first.start_write(number, content, urgent), last, false),
        Err(refusal) => Err(refusal),
    }
}

/// Takes an invalidation, likewise.
pub fn start_invalidate<A: MemDevice, B: MemDevice>(
    first: &mut A,
    second: &mut B,
    last: &mut bool,
    number: DeviceNumber,
) -> Result<(), DeviceRefusal>
    ensures { OfPair (Accepts (record { job = record { number = number.0; mark = Some mark.Invalid; urgent = false }; length = None }) result)
        last.old last.new (A.told first.old) (A.clock first.old) (B.told second.old) (B.clock second.old) (A.told first.new) (A.clock first.new) (B.told second.new) (B.clock second.new) }
{
    match look(first, second, number) {
        Ok(true) => note(second.start_invalidate(number), last, true),
        Ok(false) => note(first.start_invalidate(number), last, false),
        Err(refusal) => Err(refusal),
    }
}

/// Takes an erase, likewise.
pub fn start_erase<A: MemDevice, B: MemDevice>(
    first: &mut A,
    second: &mut B,
    last: &mut bool,
    number: DeviceNumber,
) -> Result<(), DeviceRefusal>
    ensures { OfPair (Accepts (record { job = record { number = number.0; mark = Some mark.Erased; urgent = false }; length = None }) result)
        last.old last.new (A.told first.old) (A.clock first.old) (B.told second.old) (B.clock second.old) (A.told first.new) (A.clock first.new) (B.told second.new) (B.clock second.new) }
{
    match look(first, second, number) {
        Ok(true) => note(second.start_erase(number), last, true),
        Ok(false) => note(first.start_erase(number), last, false),
        Err(refusal) => Err(refusal),
    }
}

// Notes which device had the last job, where one was taken.
fn note(
    taken: Result<(), DeviceRefusal>,
    last: &mut bool,
    second: bool,
) -> Result<(), DeviceRefusal>
    ensures taken { result ≡ taken }
    ensures last { last.new ≡ noted taken last.old second }
{
    if taken.is_ok() {
        *last = second;
    }
    taken
}

// Whether the number is the second device's, where a job may be started.
fn look<A: MemDevice, B: MemDevice>(
    first: &A,
    second: &B,
    number: DeviceNumber,
) -> Result<bool, DeviceRefusal>
    ensures looks { Looks number.0 result (A.told first.now) (B.told second.now) }
    ensures first { InOrder (A.told first.now) (A.clock first.now) }
    ensures second { InOrder (B.told second.now) (B.clock second.now) }
{
    let _first = first.status();
    let _second = second.status();
    if is_busy(first) {
        return Err(DeviceRefusal::Busy);
    }
    if is_busy(second) {
        return Err(DeviceRefusal::Busy);
    }
    if !is_up(first) {
        return Err(DeviceRefusal::Uninit);
    }
    if !is_up(second) {
        return Err(DeviceRefusal::Uninit);
    }
    Ok(second.mark_kind(number).is_some())
}

pub(crate) fn is_busy<D: MemDevice>(device: &D) -> bool
    ensures { result ≡ is_open (D.told device.now).stand }
{
    device.result() == JobResult::JobPending
}

fn is_up<D: MemDevice>(device: &D) -> bool
    ensures { result ≡ (D.told device.now).started }
{
    device.status() != MemStatus::Uninit
}
