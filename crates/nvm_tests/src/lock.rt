// A gate, in sixteen threads and the first one.
ghost use Rattle.std.specs.Prelude.{◌≡◌, ℕ, ◌+◌, ◌-◌, ◌^◌, ◌<◌, ◌≤◌, ◌++◌, [], ◌∷◌, length, vec_len, true, false, cond, ◌==◌, ◌||◌, Some, None, All, IfOk, IfSome, IfNone};
ghost use Rattle.turn_gate.specs.Pass.{IsFree, IsOutside, IsPassOf, knows};

use std::alloc::{AllocError, Global};
use std::marker::Model;
use std::sync::Wait;
use std::thread;
use std::thread::Threads;
use turn_gate::{Gate, Kept, Pass, make};

const WORDS: u32 = 4;

const PASSES: u32 = 16;

const ROUNDS: u32 = 500;

// The first entry gives each word the status 0. It names no word.
const FIRST: u32 = u32::MAX;

// A list of words with their statuses.
#[derive(Drop)]
struct Statuses {
    list: Vec<(u32, u8)>,
}

impl Model for Statuses {
    ghost use Rattle.std.specs.Prelude.{ℕ, List, ◌<◌, ◌^◌, length};

    ghost Value = { List (ℕ × ℕ) };

    ghost view = { λ s. s.list.items };

    ghost invariant = { λ s. length s.list.items < 2 ^ 32 };
}

impl Kept for Statuses {
    ghost use Rattle.std.specs.Prelude.{true, cond, ◌==◌, ◌||◌, Some, None};

    type Entry = (u32, u8);

    type Root = u32;

    ghost entries = { λ x. x };

    ghost gives = { λ e w. cond ((e.0 == 4294967295) || (w == e.0)) (Some e.1) None };

    ghost is_open = { λ e. true };

    ghost root = { λ x. 0 };

    fn count(&self) -> u32 {
        self.list.len() as u32
    }
}

impl Statuses {
    fn new(alloc: Global) -> Result<Statuses, AllocError>
        ensures { IfOk result (λ s. s ≡ (4294967295, 0) ∷ []) }
    {
        let mut list = Vec::new(alloc);
        list.push((FIRST, 0))?;
        Ok(Statuses { list })
    }

    // The new entry's number, or None where there is no room for it.
    fn add(&mut self, word: u32, status: u8) -> Option<u32>
        ensures added { IfSome result (λ n. self.new ≡ self.old ++ (word, status) ∷ []) }
        ensures none { IfNone result (self.new ≡ self.old) }
    {
        let number = self.list.len() as u32;
        if number == u32::MAX || self.list.push((word, status)).is_err() {
            return None;
        }
        Some(number)
    }
}

// The newest entry's number, or None where there was no room for it.
fn change<W: Wait>(
    rt: &W,
    gate: &Gate<Statuses>,
    pass: &mut Pass<Statuses>,
    word: u32,
    status: u8,
) -> Option<u32>
    requires free { IsPassOf gate.now pass.old × IsOutside pass.old }
    requires word { (word < gate.now.words) × (word < 4) }
    ensures free { IsPassOf gate.now pass.new × IsOutside pass.new }
    ensures parts { (knows pass.new).parts ≡ (knows pass.old).parts }
{
    let mut value = gate.enter(rt, pass);
    match value.add(word, status) {
        Some(number) => {
            gate.set_word(pass, &value, word, status);
            gate.leave(pass, value);
            Some(number)
        }
        None => {
            gate.leave(pass, value);
            None
        }
    }
}

// A pass with its number, and what its last poll told.
#[derive(Drop)]
struct WorkerOf<P> {
    pass: P,
    number: u32,
    told: Told,
}

type Worker = WorkerOf<Pass<Statuses>>;

// A word, the entry that gave it its status, the status, and how often a poll was wrong.
#[derive(Copy, Clone, Drop)]
struct Told {
    word: u32,
    entry: u32,
    status: u8,
    wrong: u32,
}

// Changes one word, with a poll before and one behind. The new entry lies between what they tell.
#[tactic(auto, unfolding(turn_gate::specs::Pass::IsFree))]
fn work_once<W: Wait>(rt: &W, gate: &Gate<Statuses>, worker: &mut Worker, round: u32)
    requires free { IsFree gate.now 1 worker.old.pass }
    requires words { gate.now.words ≡ 4 }
    ensures free { IsFree gate.now 1 worker.new.pass }
{
    let word = (worker.number % WORDS + round % WORDS) % WORDS;
    let before = gate.poll(&mut worker.pass, word);
    let number = change(rt, gate, &mut worker.pass, word, (round % 256) as u8);
    let after = gate.poll(&mut worker.pass, word);
    let is_right = match number {
        None => false,
        Some(number) => before.entry < number && number <= after.entry,
    };
    worker.told.word = word;
    worker.told.entry = after.entry;
    worker.told.status = after.status;
    if !is_right {
        worker.told.wrong = worker.told.wrong.saturating_add(1);
    }
}

fn work<W: Wait>(rt: &W, gate: &Gate<Statuses>, worker: &mut Worker)
    requires free { IsFree gate.now 1 worker.old.pass }
    requires words { gate.now.words ≡ 4 }
    ensures free { IsFree gate.now 1 worker.new.pass }
{
    for round in 0..ROUNDS {
        work_once(rt, gate, worker, round);
    }
}

fn work_all<R: Threads + Wait + Sync>(rt: &R, gate: &Gate<Statuses>, workers: &mut [Worker])
    requires free { All (λ w. IsFree gate.now 1 w.pass) workers.old }
    requires words { gate.now.words ≡ 4 }
    requires some { 0 < length workers.old }
    ensures free { All (λ w. IsFree gate.now 1 w.pass) workers.new }
    ensures same { length workers.new ≡ length workers.old }
{
    let count = workers.len();
    thread::for_each_mut(rt, workers, count, &|_, worker| work(rt, gate, worker));
}

#[tactic(auto, unfolding(turn_gate::specs::Pass::IsFree))]
fn worker_of(gate: &Gate<Statuses>, pass: &mut Pass<Statuses>, number: u32) -> Worker
    requires free { IsPassOf gate.now pass.old × IsOutside pass.old }
    requires parts { 1 < (knows pass.old).parts }
    ensures free { IsFree gate.now 1 result.pass }
    ensures left { IsPassOf gate.now pass.new × IsOutside pass.new × ((knows pass.new).parts + 1 ≡ (knows pass.old).parts) }
{
    WorkerOf {
        pass: gate.split(pass),
        number,
        told: Told {
            word: 0,
            entry: 0,
            status: 0,
            wrong: 0,
        },
    }
}

#[tactic(auto, unfolding(turn_gate::specs::Pass::IsFree))]
fn workers_of(
    alloc: Global,
    gate: &Gate<Statuses>,
    pass: &mut Pass<Statuses>,
) -> Result<Vec<Worker>, AllocError>
    requires free { IsFree gate.now (2 ^ 64) pass.old }
    ensures left { IsPassOf gate.now pass.new × IsOutside pass.new }
    ensures workers { IfOk result (λ v. All (λ w. IsFree gate.now 1 w.pass) v.items × (0 < length v.items) × ((knows pass.new).parts + length v.items ≡ 2 ^ 64)) }
{
    let mut workers = Vec::new(alloc);
    while workers.len() < PASSES as usize {
        let number = workers.len() as u32;
        workers.push(worker_of(gate, pass, number))?;
    }
    Ok(workers)
}

// What the workers' last polls told, behind their joins.
#[tactic(auto, unfolding(turn_gate::specs::Pass::IsFree))]
fn join_all(
    gate: &Gate<Statuses>,
    pass: &mut Pass<Statuses>,
    mut workers: Vec<Worker>,
    told: &mut Vec<Told>,
)
    requires free { IsPassOf gate.now pass.old × IsOutside pass.old }
    requires workers { All (λ w. IsFree gate.now 1 w.pass) workers.items }
    requires parts { (knows pass.old).parts + length workers.items ≡ 2 ^ 64 }
    ensures { IsFree gate.now (2 ^ 64) pass.new }
{
    while let Some(worker) = workers.pop() {
        gate.join(pass, worker.pass);
        let _kept = told.push(worker.told);
    }
}

#[tactic(auto, unfolding(turn_gate::specs::Pass::IsFree))]
fn open(alloc: Global) -> Result<(Gate<Statuses>, Pass<Statuses>), AllocError>
    ensures free { IfOk result (λ r. IsFree r.0 (2 ^ 64) r.1) }
    ensures words { IfOk result (λ r. r.0.words ≡ 4) }
{
    let Ok(opened) = make(alloc, Statuses::new(alloc)?, WORDS) else {
        return Err(AllocError);
    };
    Ok(opened)
}

// Sixteen workers in threads of their own, and what their last polls told.
fn work_through<R: Threads + Wait + Sync>(
    rt: &R,
    alloc: Global,
    gate: &Gate<Statuses>,
    pass: &mut Pass<Statuses>,
) -> Result<Vec<Told>, AllocError>
    requires free { IsFree gate.now (2 ^ 64) pass.old }
    requires words { gate.now.words ≡ 4 }
    ensures free { IfOk result (λ _. IsFree gate.now (2 ^ 64) pass.new) }
{
    let mut told = Vec::with_capacity(alloc, PASSES as usize)?;
    let mut workers = workers_of(alloc, gate, pass)?;
    work_all(rt, gate, workers.as_mut_slice());
    join_all(gate, pass, workers, &mut told);
    Ok(told)
}

// Whether the entry of a last poll stands in the list, and no poll was wrong.
fn is_right(value: &Statuses, told: &Told) -> bool {
    match value.list.get(told.entry as usize) {
        None => false,
        Some(entry) => told.wrong == 0 && *entry == (told.word, told.status),
    }
}

fn are_right(value: &Statuses, told: &[Told]) -> bool {
    for each in told {
        if !is_right(value, each) {
            return false;
        }
    }
    true
}

// Whether each entry came into the list, and each worker's last poll was right.
fn is_one_list(value: &Statuses, told: &[Told]) -> bool {
    value.list.len() == 1 + (PASSES * ROUNDS) as usize
        && told.len() == PASSES as usize
        && are_right(value, told)
}

// Whether the gate gives back one list behind the workers.
#[tactic(auto, unfolding(turn_gate::specs::Pass::IsFree))]
fn work_beside<R: Threads + Wait + Sync>(rt: &R, alloc: Global) -> Result<bool, AllocError> {
    let (gate, mut pass) = open(alloc)?;
    let told = work_through(rt, alloc, &gate, &mut pass)?;
    let value = gate.close(pass);
    Ok(is_one_list(&value, told.as_slice()))
}

#[test]
fn sixteen_passes_make_one_list(rt: HostRuntime) {
    assert!(rt; matches!(work_beside(&rt, rt.alloc()), Ok(true)));
}
