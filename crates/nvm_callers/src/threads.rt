// The callers' threads, with the driver beside them.
ghost use Rattle.std.specs.Prelude.{◌≡◌, ◌<◌, length};
ghost use Rattle.nvm_callers.specs.Placed.{AllChanged, AllPlaced};

use crate::beside::{Drive, ThreadWork, run_beside};
use crate::ending::Ending;
use driver_moves::nvm_shared::{Locked, Shared, SharedOf, StackPass, TellsGate, TellsTerms};
use std::snapshot::Snapshot;
use std::sync::Wait;
use std::thread::Threads;
use turn_gate::{Gate, Kept, Pass};

/// A pass, and where its stores go, with how far its caller came: how many deeds it made, how it ended, if it did, and how many
/// entries it saw then.
#[derive(Drop)]
pub struct WorkerOf<P, S> {
    pub pass: P,
    pub stores: S,
    pub made: usize,
    pub ending: Option<Ending>,
    pub seen: u32,
}

/// The worker of a caller. It is an alias, since a thread takes a struct whose parameters stand bare.
pub type Worker<S> = WorkerOf<StackPass, S>;

// A thread takes a gate and passes that name their value by a parameter alone, so the calls stand one over another.
fn run_of<
    R: Threads + Wait + Sync,
    G: TellsGate + Drop + Sync,
    T: TellsTerms + Drop + Sync,
    P: Send,
    J: ThreadWork<SharedOf<G, T>, P> + Sync,
    K: Drive<SharedOf<G, T>, P, J>,
>(rt: &R, shared: &SharedOf<G, T>, job: &J, workers: &mut [P], driver: &mut K)
    requires some { 0 < length workers.old }
    requires count { length workers.old ≡ J.count job.now }
    requires each { AllPlaced (J.ready job.now shared.now) workers.old }
    requires ready { K.ready driver.old shared.now }
    ensures count { length workers.new ≡ length workers.old }
    ensures each { AllChanged (J.done job.now shared.now) workers.old workers.new }
    ensures done { K.done driver.old driver.new shared.now }
{
    run_beside::<R, SharedOf<G, T>, P, J, K>(rt, shared, job, workers, driver);
}

fn run_at<
    R: Threads + Wait + Sync,
    V: Kept + Send + Drop,
    T: TellsTerms + Drop + Sync,
    S: Send,
    J: ThreadWork<SharedOf<Gate<V>, T>, WorkerOf<Pass<V>, S>> + Sync,
    K: Drive<SharedOf<Gate<V>, T>, WorkerOf<Pass<V>, S>, J>,
>(
    rt: &R,
    shared: &SharedOf<Gate<V>, T>,
    job: &J,
    workers: &mut [WorkerOf<Pass<V>, S>],
    driver: &mut K,
)
    requires some { 0 < length workers.old }
    requires count { length workers.old ≡ J.count job.now }
    requires each { AllPlaced (J.ready job.now shared.now) workers.old }
    requires ready { K.ready driver.old shared.now }
    ensures count { length workers.new ≡ length workers.old }
    ensures each { AllChanged (J.done job.now shared.now) workers.old workers.new }
    ensures done { K.done driver.old driver.new shared.now }
{
    run_of::<R, Gate<V>, T, WorkerOf<Pass<V>, S>, J, K>(rt, shared, job, workers, driver);
}

/// The first workers in threads, and beside them the driver with the others.
pub fn run_shared<
    R: Threads + Wait + Sync,
    S: Send,
    J: ThreadWork<Shared, Worker<S>> + Sync,
    K: Drive<Shared, Worker<S>, J>,
>(rt: &R, shared: &Shared, job: &J, workers: &mut [Worker<S>], driver: &mut K)
    requires some { 0 < length workers.old }
    requires count { length workers.old ≡ J.count job.now }
    requires each { AllPlaced (J.ready job.now shared.now) workers.old }
    requires ready { K.ready driver.old shared.now }
    ensures count { length workers.new ≡ length workers.old }
    ensures each { AllChanged (J.done job.now shared.now) workers.old workers.new }
    ensures done { K.done driver.old driver.new shared.now }
{
    run_at::<R, Locked, Snapshot<Locked>, S, J, K>(rt, shared, job, workers, driver);
}
