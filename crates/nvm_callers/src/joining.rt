// The callers' passes, taken in by the driver's.
ghost use Rattle.std.specs.Prelude.{◌≡◌, ◌≤◌, ◌<◌, ◌^◌, ◌+◌, ◌∷◌, [], length, drop, slice_index_or, vec_len, vec_capacity, All, IfSome, IsSome};
ghost use Rattle.turn_gate.specs.Pass.{knows};
ghost use Rattle.driver_moves.specs.nvm_shared.Driving.{IsDriverOf};
ghost use Rattle.nvm_callers.specs.Joins.{Collects};
ghost use Rattle.nvm_callers.specs.Placed.{AllPlaced};
ghost use Rattle.nvm_callers.specs.Callers.{HaveRun, HasWorked, worse};

use crate::ending::Ending;
use crate::stores::Stores;
use crate::threads::{Worker, WorkerOf};
use driver_moves::MemDevice;
use driver_moves::nvm_shared::{Driver, NotedCopies, Shared, StackPass};
use script_callers::Program;
use std::snapshot::Snapshot;

/// How many entries the worker saw that saw most.
pub(crate) fn most_seen<S>(workers: &[Worker<S>]) -> u32
    ensures { All (λ w. w.seen ≤ result) workers.now }
{
    let mut most = 0;
    for place in 0..workers.len() {
        if most < workers[place].seen {
            most = workers[place].seen;
        }
    }
    most
}

/// Joins all passes, from the last on, and tells how their callers ended.
pub(crate) fn join_all<D: MemDevice, C: NotedCopies + Drop, S: Stores + Drop>(
    shared: &Shared,
    pass: &mut StackPass,
    driver: &Driver<D, C>,
    mut workers: Vec<Worker<S>>,
    mut stores: Vec<S>,
    firsts: &Snapshot<Vec<S>>,
    programs: &[Program],
) -> (Ending, Vec<S>)
    requires driver { IsDriverOf D.told D.clock C.told shared.now pass.old driver.now }
    requires first { Collects [] (knows pass.old) }
    requires count { (vec_len workers ≡ length programs.now) × (vec_len firsts.now.value ≡ length programs.now) }
    requires each { AllPlaced (λ place w. HasWorked S.bytes S.made S.mirrors shared.now programs.now place w.pass w.made w.ending w.seen (slice_index_or firsts.now.value.items place w.stores) w.stores) workers.items }
    requires none { stores.items ≡ [] }
    requires room { length programs.now ≤ vec_capacity stores }
    requires seen { All (λ w. w.seen ≤ length (knows pass.old).seen) workers.items }
    requires parts { (knows pass.old).parts + vec_len workers ≡ 2 ^ 64 }
    ensures driver { IsDriverOf D.told D.clock C.told shared.now pass.new driver.now }
    ensures parts { (knows pass.new).parts ≡ 2 ^ 64 }
    ensures seen { (knows pass.new).seen ≡ (knows pass.old).seen }
    ensures ran { HaveRun S.bytes S.made S.mirrors shared.now.terms programs.now firsts.now.value.items result.1.items result.0 (knows pass.new) }
{
    let mut ending = Ending::All;
    for _joined in 0..programs.len() {
        ending = join_last(
            shared,
            pass,
            driver,
            &mut workers,
            &mut stores,
            firsts,
            programs,
            ending,
        );
    }
    (ending, stores)
}

// Joins the last of them, behind others that ended so and stored this.
fn join_last<D: MemDevice, C: NotedCopies + Drop, S: Stores + Drop>(
    shared: &Shared,
    pass: &mut StackPass,
    driver: &Driver<D, C>,
    workers: &mut Vec<Worker<S>>,
    stores: &mut Vec<S>,
    firsts: &Snapshot<Vec<S>>,
    programs: &[Program],
    ending: Ending,
) -> Ending
    requires driver { IsDriverOf D.told D.clock C.told shared.now pass.old driver.now }
    requires some { 0 < vec_len workers.old }
    requires count { (vec_len workers.old ≤ length programs.now) × (vec_len firsts.now.value ≡ length programs.now) }
    requires each { AllPlaced (λ place w. HasWorked S.bytes S.made S.mirrors shared.now programs.now place w.pass w.made w.ending w.seen (slice_index_or firsts.now.value.items place w.stores) w.stores) workers.old.items }
    requires seen { All (λ w. w.seen ≤ length (knows pass.old).seen) workers.old.items }
    requires room { vec_len workers.old + vec_len stores.old ≤ vec_capacity stores.old }
    requires ran { HaveRun S.bytes S.made S.mirrors shared.now.terms (drop (vec_len workers.old) programs.now) (drop (vec_len workers.old) firsts.now.value.items) stores.old.items ending (knows pass.old) }
    ensures driver { IsDriverOf D.told D.clock C.told shared.now pass.new driver.now }
    ensures count { vec_len workers.new + 1 ≡ vec_len workers.old }
    ensures each { AllPlaced (λ place w. HasWorked S.bytes S.made S.mirrors shared.now programs.now place w.pass w.made w.ending w.seen (slice_index_or firsts.now.value.items place w.stores) w.stores) workers.new.items }
    ensures seen { (knows pass.new).seen ≡ (knows pass.old).seen }
    ensures bound { All (λ w. w.seen ≤ length (knows pass.new).seen) workers.new.items }
    ensures room { vec_len workers.new + vec_len stores.new ≤ vec_capacity stores.new }
    ensures parts { (knows pass.new).parts ≡ (knows pass.old).parts + 1 }
    ensures ran { HaveRun S.bytes S.made S.mirrors shared.now.terms (drop (vec_len workers.new) programs.now) (drop (vec_len workers.new) firsts.now.value.items) stores.new.items result (knows pass.new) }
{
    match workers.pop() {
        Some(worker) => {
            let WorkerOf {
                pass: theirs,
                stores: last,
                ending: ended,
                ..
            } = worker;
            shared.join(pass, theirs);
            put_first(stores, last);
            worse_of(ended, ending)
        }
        None => unreachable!(),
    }
}

// Puts it before the others, where there is room.
fn put_first<S: Drop>(stores: &mut Vec<S>, first: S)
    requires room { vec_len stores.old < vec_capacity stores.old }
    ensures items { stores.new.items ≡ first ∷ stores.old.items }
    ensures len { vec_len stores.new ≡ vec_len stores.old + 1 }
    ensures room { vec_capacity stores.old ≤ vec_capacity stores.new }
{
    match stores.insert(0, first) {
        Ok(()) => {}
        Err(_) => unreachable!(),
    }
}

// What is told of an ending that there is, and of another one.
fn worse_of(one: Option<Ending>, other: Ending) -> Ending
    requires { IsSome one }
    ensures { IfSome one (λ e. result ≡ worse e other) }
{
    match one {
        Some(one) => worse(one, other),
        None => unreachable!(),
    }
}

// What is told of two endings.
fn worse(one: Ending, other: Ending) -> Ending
    ensures { result ≡ worse one other }
{
    match (one, other) {
        (Ending::Memory, _) | (_, Ending::Memory) => Ending::Memory,
        (Ending::NoRoom, _) | (_, Ending::NoRoom) => Ending::NoRoom,
        (Ending::All, Ending::All) => Ending::All,
    }
}
