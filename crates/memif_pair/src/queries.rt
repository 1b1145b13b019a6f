// The queries of a pair, each by those of its devices.
ghost use Rattle.std.specs.Prelude.{◌≡◌, Bool, true};
ghost use Rattle.memif.specs.Told.{faults_of, figures_at, given_by, is_open, most_of, ops_of, result_of};
ghost use Rattle.memif.specs.Calls.{IsKind};
ghost use Rattle.memif_pair.specs.Together.{HasNumber, OfBoth};

use memif::{JobResult, MemDevice, PlainMark};
use nv_base::{DeviceNumber, DeviceOp};

/// What the last job came to, on the device that had it. `last` tells whether that is the second one.
pub fn result<A: MemDevice, B: MemDevice>(first: &A, second: &B, last: bool) -> JobResult
    ensures result { OfBoth (λ d. result ≡ result_of d.stand) last (A.told first.now) (B.told second.now) }
    ensures pending { result ≡ JobResult.JobPending → OfBoth (λ d. is_open d.stand ≡ true) last (A.told first.now) (B.told second.now) }
{
    if last {
        second.result()
    } else {
        first.result()
    }
}

/// Lends the content that the last job read, likewise.
pub fn take_data<'a, A: MemDevice, B: MemDevice>(
    first: &'a A,
    second: &'a B,
    last: bool,
) -> &'a [u8]
    ensures { OfBoth (λ d. result.now ≡ given_by d.stand) last (A.told first.now) (B.told second.now) }
{
    if last {
        second.take_data()
    } else {
        first.take_data()
    }
}

/// What a number holds, without its content: on the second device where it is one of its numbers.
pub fn mark_kind<A: MemDevice, B: MemDevice>(
    first: &A,
    second: &B,
    number: DeviceNumber,
) -> Option<PlainMark>
    ensures { (last : Bool) → OfBoth (λ d. IsKind d number.0 result) last (A.told first.now) (B.told second.now) }
{
    match second.mark_kind(number) {
        Some(kind) => Some(kind),
        None => first.mark_kind(number),
    }
}

/// The changing operations of both so far. They stand still at their end.
pub fn ops<A: MemDevice, B: MemDevice>(first: &A, second: &B) -> u64
    ensures { (last : Bool) → OfBoth (λ d. result ≡ ops_of d) last (A.told first.now) (B.told second.now) }
{
    first.ops().saturating_add(second.ops())
}

/// The faults of both so far. They stand still at their end.
pub fn faults<A: MemDevice, B: MemDevice>(first: &A, second: &B) -> u64
    ensures { (last : Bool) → OfBoth (λ d. result ≡ faults_of d) last (A.told first.now) (B.told second.now) }
{
    let _first = first.status();
    let _second = second.status();
    first.faults().saturating_add(second.faults())
}

/// The turns that the open work of both takes at most, where no fault comes. Two devices' turns have a sum.
pub fn left<A: MemDevice, B: MemDevice>(first: &A, second: &B) -> u64
    ensures { (last : Bool) → OfBoth (λ d. result ≡ d.left) last (A.told first.now) (B.told second.now) }
{
    let _first = first.status();
    let _second = second.status();
    first.left().saturating_add(second.left())
}

/// By how much a start of an operation on a number raises `left` at most: by as much as on its own device.
pub fn most<A: MemDevice, B: MemDevice>(
    first: &A,
    second: &B,
    number: DeviceNumber,
    op: DeviceOp,
) -> u64
    requires { HasNumber number.0 (A.told first.now) (B.told second.now) }
    ensures { (last : Bool) → OfBoth (λ d. result ≡ most_of (figures_at d.fixed number.0) op) last (A.told first.now) (B.told second.now) }
{
    if second.mark_kind(number).is_some() {
        second.most(number, op)
    } else {
        first.most(number, op)
    }
}
