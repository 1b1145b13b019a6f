// One queue: a ring of jobs, in the order in which they came.
ghost use Rattle.std.specs.Prelude.{◌≡◌, ◌==◌, ◌+◌, ◌<◌, IsTrue, not, take, drop, find, fold};
ghost use Rattle.std.specs.List.{list_all};
ghost use Rattle.job_queues.specs.Order.{first_of, first_of_two};
ghost use Rattle.job_queues.specs.Jobs.{without, turned};
ghost use Rattle.job_queues.specs.InOrder.{InOrder};

use crate::Waiting;
use circular_buffer::HeapCircularBuffer;

/// The job that goes before all others of a queue. Each is looked at once.
pub fn first_of(ring: &HeapCircularBuffer<Waiting>) -> Option<Waiting>
    ensures { result ≡ first_of ring.now.items }
{
    let (front, back) = ring.as_slices();
    first_among(first_among(None, front), back)
}

// The one that goes first, with these looked at.
fn first_among(first: Option<Waiting>, jobs: &[Waiting]) -> Option<Waiting>
    ensures { result ≡ fold first_of_two first jobs.now }
{
    let mut first = first;
    for job in jobs {
        first = first_of_two(first, *job);
    }
    first
}

// The one of two that goes first.
fn first_of_two(first: Option<Waiting>, job: Waiting) -> Option<Waiting>
    ensures { result ≡ first_of_two first job }
{
    match first {
        Some(first) if !job.goes_before(&first) => Some(first),
        _ => Some(job),
    }
}

/// Whether each job leads those behind it. It looks no further than at the first one that doesn't.
#[tactic(auto, using(crate::proofs::InOrder::in_order_one))]
pub fn is_in_order(ring: &HeapCircularBuffer<Waiting>) -> bool
    ensures { IsTrue result → InOrder ring.now.items }
{
    for at in 1..ring.len() {
        if !is_led(ring, at) {
            return false;
        }
    }
    true
}

// Whether the job before it leads the one at an index.
fn is_led(ring: &HeapCircularBuffer<Waiting>, at: usize) -> bool
    requires { 0 < at }
    ensures { IsTrue result → InOrder (take at ring.now.items) → InOrder (take (at + 1) ring.now.items) }
{
    let Some(job) = ring.get(at - 1) else {
        return false;
    };
    match ring.get(at) {
        Some(behind) => job.leads(behind),
        None => false,
    }
}

/// The job of a block in a queue. Each is looked at once at most.
pub fn job_of(ring: &HeapCircularBuffer<Waiting>, block: u16) -> Option<Waiting>
    ensures { result ≡ find (λ w. w.block == block) ring.now.items }
{
    ring.iter().copied().find(|w| w.block == block)
}

/// Takes the job with a number out. Where it stands first, and no other has its number, nothing else moves; else the ring is
/// turned once. The others keep their order.
pub fn take_out(ring: &mut HeapCircularBuffer<Waiting>, number: u64)
    ensures { ring.new ≡ record ring.old { items = without number ring.old.items } }
{
    if is_first_alone(ring, number) {
        let _first = ring.pop_front();
    } else {
        turn(ring, number);
    }
}

// Whether the first job has this number, and no other one.
fn is_first_alone(ring: &HeapCircularBuffer<Waiting>, number: u64) -> bool
    ensures { IsTrue result → without number ring.now.items ≡ drop 1 ring.now.items }
{
    let (front, back) = ring.as_slices();
    if front.is_empty() || front[0].number != number {
        return false;
    }
    if !has_none(&front[1..], number) {
        return false;
    }
    has_none(back, number)
}

// Whether no job has this number. Each is looked at once.
fn has_none(jobs: &[Waiting], number: u64) -> bool
    ensures { result ≡ list_all (λ w. not (w.number == number)) jobs.now }
{
    jobs.iter().all(|job| job.number != number)
}

// Turns the ring once, without the job with a number.
fn turn(ring: &mut HeapCircularBuffer<Waiting>, number: u64)
    ensures { ring.new ≡ record ring.old { items = without number ring.old.items } }
{
    for _ in 0..ring.len() {
        turn_on(ring, number);
    }
}

// Takes the first job out, and puts it to the end again where it has another number.
fn turn_on(ring: &mut HeapCircularBuffer<Waiting>, number: u64)
    ensures { ring.new ≡ record ring.old { items = turned number ring.old.items } }
{
    let _len = ring.len();
    let Some(first) = ring.pop_front() else {
        return;
    };
    if first.number != number {
        let _room = ring.try_push_back(first);
    }
}
