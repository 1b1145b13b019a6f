// Callers beside each other, with a driver beside them.
ghost use Rattle.std.specs.Prelude.{◌≡◌, ◌≤◌, ◌^◌, ◌+◌, [], ℕ, length, slice_index_or, vec_len, vec_capacity, true, All, IsSome, IsTrue};
ghost use Rattle.turn_gate.specs.Pass.{Has, knows};
ghost use Rattle.driver_moves.specs.nvm_moves.script_walks.Runs.{has_ended};
ghost use Rattle.driver_moves.specs.block_machine.Legal.{IsLegal};
ghost use Rattle.driver_moves.specs.nvm_shared.Driving.{IsDriverOf};
ghost use Rattle.driver_moves.specs.nvm_shared.Passes.{IsDriven};
ghost use Rattle.nvm_callers.specs.Driven.{HasDriven};
ghost use Rattle.nvm_callers.specs.Joins.{Collects};
ghost use Rattle.nvm_callers.specs.Callers.{GoesOn, HasWorked, HaveRun, WorkerMayGoOn, MayRun};
ghost use Rattle.nvm_callers.specs.Placed.{AllChanged, AllPlaced};
ghost use Rattle.nvm_callers.specs.Steering.{HasSteered, TellsAlways};

use crate::ending::Ending;
use crate::hold::Hold;
use crate::joining::{join_all, most_seen};
use crate::programs::Programs;
use crate::round::Round;
use crate::splitting::split_all;
use crate::steering::{Steering, SteeringOf, come_to_rest, see};
use crate::stores::Stores;
use crate::threads::{Worker, run_shared};
use driver_moves::MemDevice;
use driver_moves::nvm_shared::{Driver, NotedCopies, Shared, StackPass};
use script_callers::Program;
use std::alloc::{AllocError, Global};
use std::snapshot::Snapshot;
use std::sync::Wait;
use std::thread::Threads;

/// Makes these programs in threads, where these can be made, with the driver beside them, and then the driver's turns until none need
/// follow. A thread has one program or, where the hold lets callers share it, some, with each of which it goes on in turn. The stores of
/// each go where its place says. Where waits go on for long their callers come back, and once all have, the driver makes its turns alone,
/// and those that aren't at their ends go on: so no caller needs a thread. Behind it the pass has all parts again. It answers the pass, the
/// driver, and how the callers ended: where memory is wanting before the threads, no deed is made.
pub fn run_callers<
    R: Threads + Wait + Sync,
    D: MemDevice,
    C: NotedCopies + Drop,
    S: Stores + Send + Drop,
    H: Hold + Sync,
>(
    rt: &R,
    alloc: Global,
    shared: &Shared,
    mut pass: StackPass,
    mut driver: Driver<D, C>,
    stores: Vec<S>,
    programs: &[Program],
    hold: &H,
) -> (StackPass, Driver<D, C>, Ending, Vec<S>)
    requires driver { IsDriverOf D.told D.clock C.told shared.now pass driver }
    requires alone { (knows pass).parts ≡ 2 ^ 64 }
    requires own { (k : ℕ) → Has (knows pass).own k → IsDriven (knows pass).seen k }
    requires telling { TellsAlways D.told shared.now.terms }
    requires lock { C.is_of shared.now.gate × S.is_of shared.now.gate }
    requires stores { vec_len stores ≡ length programs.now }
    requires may { All (MayRun shared.now.terms.config) programs.now }
    ensures driver { IsDriverOf D.told D.clock C.told shared.now result.0 result.1 }
    ensures alone { (knows result.0).parts ≡ 2 ^ 64 }
    ensures driven { HasDriven D.told D.clock C.told C.is_store C.looked C.over C.stands shared.now.terms (knows pass).seen (knows result.0).seen driver result.1 }
    ensures ran { HaveRun S.bytes S.made S.mirrors shared.now.terms programs.now stores.items result.3.items result.2 (knows result.0) }
    ensures ends { IsTrue (has_ended shared.now.terms.config (knows result.0).seen) }
    ensures legal { shared.now.terms.tells ≡ true → IsLegal shared.now.terms.config shared.now.terms.cap (knows result.0).seen }
{
    match Vec::with_capacity(alloc, programs.len()) {
        Ok(workers) => run_all(
            rt, alloc, shared, pass, driver, stores, programs, hold, workers,
        ),
        Err(AllocError) => {
            come_to_rest(rt, shared, &mut pass, &mut driver);
            (pass, driver, Ending::Memory, stores)
        }
    }
}

// With room for their workers.
fn run_all<
    R: Threads + Wait + Sync,
    D: MemDevice,
    C: NotedCopies + Drop,
    S: Stores + Send + Drop,
    H: Hold + Sync,
>(
    rt: &R,
    alloc: Global,
    shared: &Shared,
    mut pass: StackPass,
    driver: Driver<D, C>,
    mut stores: Vec<S>,
    programs: &[Program],
    hold: &H,
    mut workers: Vec<Worker<S>>,
) -> (StackPass, Driver<D, C>, Ending, Vec<S>)
    requires driver { IsDriverOf D.told D.clock C.told shared.now pass driver }
    requires alone { (knows pass).parts ≡ 2 ^ 64 }
    requires own { (k : ℕ) → Has (knows pass).own k → IsDriven (knows pass).seen k }
    requires telling { TellsAlways D.told shared.now.terms }
    requires lock { C.is_of shared.now.gate × S.is_of shared.now.gate }
    requires stores { vec_len stores ≡ length programs.now }
    requires may { All (MayRun shared.now.terms.config) programs.now }
    requires none { workers.items ≡ [] }
    requires room { length programs.now ≤ vec_capacity workers }
    ensures driver { IsDriverOf D.told D.clock C.told shared.now result.0 result.1 }
    ensures alone { (knows result.0).parts ≡ 2 ^ 64 }
    ensures driven { HasDriven D.told D.clock C.told C.is_store C.looked C.over C.stands shared.now.terms (knows pass).seen (knows result.0).seen driver result.1 }
    ensures ran { HaveRun S.bytes S.made S.mirrors shared.now.terms programs.now stores.items result.3.items result.2 (knows result.0) }
    ensures ends { IsTrue (has_ended shared.now.terms.config (knows result.0).seen) }
{
    let firsts = Snapshot::of(&stores);
    split_all(shared, &mut pass, &mut workers, &mut stores, programs);
    let round = Round::new();
    let job = Programs {
        alloc,
        programs,
        hold,
        round: &round,
    };
    let mut steering = SteeringOf {
        pass,
        driver,
        round: &round,
    };
    make_rounds(rt, shared, &job, workers.as_mut_slice(), &mut steering);
    let SteeringOf { pass, driver, .. } = steering;
    finish(rt, shared, pass, driver, workers, stores, &firsts, programs)
}

// Rounds, until all callers are at their ends.
fn make_rounds<
    R: Threads + Wait + Sync,
    D: MemDevice,
    C: NotedCopies + Drop,
    S: Stores + Send,
    H: Hold + Sync,
>(
    rt: &R,
    shared: &Shared,
    job: &Programs<'_, H>,
    workers: &mut [Worker<S>],
    steering: &mut Steering<D, C>,
)
    requires driver { IsDriverOf D.told D.clock C.told shared.now steering.old.pass steering.old.driver }
    requires telling { TellsAlways D.told shared.now.terms }
    requires lock { C.is_of shared.now.gate × S.is_of shared.now.gate }
    requires count { length workers.old ≡ length job.now.programs.now }
    requires may { All (MayRun shared.now.terms.config) job.now.programs.now }
    requires each { AllPlaced (λ place w. WorkerMayGoOn shared.now job.now.programs.now place w.pass w.made) workers.old }
    ensures driver { IsDriverOf D.told D.clock C.told shared.now steering.new.pass steering.new.driver }
    ensures steers { HasSteered D.told D.clock C.told C.is_store C.looked C.over C.stands shared.now.terms (knows steering.old.pass) (knows steering.new.pass) steering.old.driver steering.new.driver }
    ensures count { length workers.new ≡ length workers.old }
    ensures each { AllPlaced (λ place w. WorkerMayGoOn shared.now job.now.programs.now place w.pass w.made) workers.new }
    ensures on { AllChanged (GoesOn S.bytes S.made S.mirrors shared.now job.now.programs.now) workers.old workers.new }
    ensures ended { All (λ w. IsSome w.ending) workers.new }
{
    for _ in rt.forever() {
        make_round(rt, shared, job, workers, steering);
        if have_ended(workers) {
            return;
        }
        come_to_rest(rt, shared, &mut steering.pass, &mut steering.driver);
    }
    unreachable!()
}

// A round: the callers go on in threads where these can be made, with the driver beside them. Where none can be made the driver gives up,
// and they go on one behind another, each up to a wait.
fn make_round<
    R: Threads + Wait + Sync,
    D: MemDevice,
    C: NotedCopies + Drop,
    S: Stores + Send,
    H: Hold + Sync,
>(
    rt: &R,
    shared: &Shared,
    job: &Programs<'_, H>,
    workers: &mut [Worker<S>],
    steering: &mut Steering<D, C>,
)
    requires driver { IsDriverOf D.told D.clock C.told shared.now steering.old.pass steering.old.driver }
    requires telling { TellsAlways D.told shared.now.terms }
    requires lock { C.is_of shared.now.gate × S.is_of shared.now.gate }
    requires count { length workers.old ≡ length job.now.programs.now }
    requires may { All (MayRun shared.now.terms.config) job.now.programs.now }
    requires each { AllPlaced (λ place w. WorkerMayGoOn shared.now job.now.programs.now place w.pass w.made) workers.old }
    ensures driver { IsDriverOf D.told D.clock C.told shared.now steering.new.pass steering.new.driver }
    ensures steers { HasSteered D.told D.clock C.told C.is_store C.looked C.over C.stands shared.now.terms (knows steering.old.pass) (knows steering.new.pass) steering.old.driver steering.new.driver }
    ensures count { length workers.new ≡ length workers.old }
    ensures each { AllPlaced (λ place w. WorkerMayGoOn shared.now job.now.programs.now place w.pass w.made) workers.new }
    ensures on { AllChanged (GoesOn S.bytes S.made S.mirrors shared.now job.now.programs.now) workers.old workers.new }
{
    if !workers.is_empty() {
        job.round.restart();
        run_shared(rt, shared, job, workers, steering);
    }
}

// Whether all callers are at their ends.
pub(crate) fn have_ended<S>(workers: &[Worker<S>]) -> bool
    ensures { result ≡ true → All (λ w. IsSome w.ending) workers.now }
{
    for worker in workers {
        if worker.ending.is_none() {
            return false;
        }
    }
    true
}

// Joins what the callers' passes know behind the last round, and comes to rest.
fn finish<W: Wait, D: MemDevice, C: NotedCopies + Drop, S: Stores + Drop>(
    rt: &W,
    shared: &Shared,
    mut pass: StackPass,
    mut driver: Driver<D, C>,
    workers: Vec<Worker<S>>,
    stores: Vec<S>,
    firsts: &Snapshot<Vec<S>>,
    programs: &[Program],
) -> (StackPass, Driver<D, C>, Ending, Vec<S>)
    requires driver { IsDriverOf D.told D.clock C.told shared.now pass driver }
    requires telling { TellsAlways D.told shared.now.terms }
    requires lock { C.is_of shared.now.gate }
    requires first { Collects [] (knows pass) }
    requires parts { (knows pass).parts + vec_len workers ≡ 2 ^ 64 }
    requires count { (vec_len workers ≡ length programs.now) × (vec_len firsts.now.value ≡ length programs.now) }
    requires each { AllPlaced (λ place w. HasWorked S.bytes S.made S.mirrors shared.now programs.now place w.pass w.made w.ending w.seen (slice_index_or firsts.now.value.items place w.stores) w.stores) workers.items }
    requires none { stores.items ≡ [] }
    requires room { length programs.now ≤ vec_capacity stores }
    ensures driver { IsDriverOf D.told D.clock C.told shared.now result.0 result.1 }
    ensures alone { (knows result.0).parts ≡ 2 ^ 64 }
    ensures driven { HasDriven D.told D.clock C.told C.is_store C.looked C.over C.stands shared.now.terms (knows pass).seen (knows result.0).seen driver result.1 }
    ensures ran { HaveRun S.bytes S.made S.mirrors shared.now.terms programs.now firsts.now.value.items result.3.items result.2 (knows result.0) }
    ensures ends { IsTrue (has_ended shared.now.terms.config (knows result.0).seen) }
{
    see(
        rt,
        shared,
        &mut pass,
        &driver,
        most_seen(workers.as_slice()),
    );
    let (ending, stores) = join_all(
        shared, &mut pass, &driver, workers, stores, firsts, programs,
    );
    come_to_rest(rt, shared, &mut pass, &mut driver);
    (pass, driver, ending, stores)
}
