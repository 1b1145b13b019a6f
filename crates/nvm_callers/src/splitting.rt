// Passes for callers, cut off the driver's.
ghost use Rattle.std.specs.Prelude.{◌≡◌, ◌<◌, ◌≤◌, ◌^◌, ◌+◌, ◌-◌, ◌++◌, ◌∷◌, [], length, drop, slice_index_or, vec_len, vec_capacity};
ghost use Rattle.turn_gate.specs.Pass.{knows, left_part};
ghost use Rattle.driver_moves.specs.nvm_shared.Passes.{IsUserOf, PassValue};
ghost use Rattle.nvm_callers.specs.Callers.{IsFresh, with_parts};
ghost use Rattle.nvm_callers.specs.Placed.{AllPlaced};
ghost use Rattle.nvm_callers.specs.declared.threads.WorkerOf.{WorkerOf as WorkerValue};

use crate::stores::Stores;
use crate::threads::{Worker, WorkerOf};
use driver_moves::nvm_shared::{Shared, StackPass};
use script_callers::Program;

/// Adds a worker for each program, whose stores are those at its place among these.
pub(crate) fn split_all<S: Stores + Drop>(
    shared: &Shared,
    pass: &mut StackPass,
    workers: &mut Vec<Worker<S>>,
    stores: &mut Vec<S>,
    programs: &[Program],
)
    requires own { IsUserOf shared.now pass.old }
    requires alone { (knows pass.old).parts ≡ 2 ^ 64 }
    requires none { workers.old.items ≡ [] }
    requires stores { vec_len stores.old ≡ length programs.now }
    requires room { length programs.now ≤ vec_capacity workers.old }
    ensures own { IsUserOf shared.now pass.new }
    ensures this { knows pass.new ≡ with_parts (knows pass.old) (2 ^ 64 - length programs.now) }
    ensures count { vec_len workers.new ≡ length programs.now }
    ensures each { AllPlaced (λ place w. IsFresh shared.now w.pass w.made w.ending × (w.stores ≡ slice_index_or stores.old.items place w.stores)) workers.new.items }
    ensures left { stores.new.items ≡ [] }
    ensures room { vec_capacity stores.old ≤ vec_capacity stores.new }
{
    for _made in 0..programs.len() {
        add_worker(shared, pass, workers, stores);
    }
}

// Adds one, whose stores are the first of these.
fn add_worker<S: Stores>(
    shared: &Shared,
    pass: &mut StackPass,
    workers: &mut Vec<Worker<S>>,
    stores: &mut Vec<S>,
)
    requires own { IsUserOf shared.now pass.old }
    requires parts { 1 < (knows pass.old).parts }
    requires room { vec_len workers.old < vec_capacity workers.old }
    requires stores { 0 < vec_len stores.old }
    ensures own { IsUserOf shared.now pass.new }
    ensures this { knows pass.new ≡ left_part (knows pass.old) }
    ensures stores { (vec_len stores.new + 1 ≡ vec_len stores.old) × (stores.new.items ≡ drop 1 stores.old.items) × (vec_capacity stores.old ≤ vec_capacity stores.new) }
    ensures room { vec_capacity workers.old ≤ vec_capacity workers.new }
    ensures one { (w : WorkerValue PassValue S) × (workers.new.items ≡ workers.old.items ++ w ∷ []) × IsFresh shared.now w.pass w.made w.ending × (w.stores ≡ slice_index_or stores.old.items 0 w.stores) }
{
    let worker = WorkerOf {
        pass: shared.split(pass),
        stores: stores.remove(0),
        made: 0,
        ending: None,
        seen: 0,
    };
    match workers.push(worker) {
        Ok(()) => {}
        Err(_) => unreachable!(),
    }
}
