// The callers' programs, as the work of their threads.
ghost use Rattle.std.specs.Prelude.{◌≡◌, ◌≤◌, ◌<◌, ◌+◌, length, All};
ghost use Rattle.turn_gate.specs.Pass.{knows};
ghost use Rattle.driver_moves.specs.nvm_shared.Passes.{IsUserOf};
ghost use Rattle.nvm_callers.specs.Callers.{GoesOn, HasBegun, WorkerMayGoOn, MayRun};
ghost use Rattle.nvm_callers.specs.Placed.{AllChanged, AllPlaced};

use crate::beside::ThreadWork;
use crate::caller::Caller;
use crate::callers::have_ended;
use crate::hold::Hold;
use crate::round::{Round, Waiting};
use crate::stores::Stores;
use crate::threads::Worker;
use driver_moves::nvm_shared::Shared;
use script_callers::Program;
use std::alloc::Global;
use std::sync::Wait;

// Of so many callers that may share threads one works in a thread beside the driver's. Whoever isn't in that has to be woken whenever the
// driver had nothing left to do, and what it asks for goes from one processor to another, both of which cost more than a request.
const ONE_OF: usize = 8;

/// Each worker goes on with the program at its place, and tells the round when it is back.
#[derive(Drop)]
pub struct Programs<'a, H> {
    pub alloc: Global,
    pub programs: &'a [Program],
    pub hold: &'a H,
    pub round: &'a Round,
}

// Goes on with a program, if its caller isn't at its end, up to a wait that goes on. Where it is at its end then, it sees the list.
fn make_program<W: Wait, H: Hold, S: Stores>(
    rt: &W,
    shared: &Shared,
    alloc: Global,
    hold: &H,
    round: &Round,
    program: &Program,
    worker: &mut Worker<S>,
)
    requires lock { S.is_of shared.now.gate }
    requires own { IsUserOf shared.now worker.old.pass }
    requires few { worker.old.made ≤ length program.now.deeds }
    requires may { MayRun shared.now.terms.config program.now }
    ensures own { IsUserOf shared.now worker.new.pass }
    ensures parts { (knows worker.new.pass).parts ≡ (knows worker.old.pass).parts }
    ensures few { worker.new.made ≤ length program.now.deeds }
    ensures begun { (first : S) → HasBegun S.bytes S.made S.mirrors shared.now.terms program.now (knows worker.old.pass) worker.old.made worker.old.ending worker.old.seen first worker.old.stores
        → HasBegun S.bytes S.made S.mirrors shared.now.terms program.now (knows worker.new.pass) worker.new.made worker.new.ending worker.new.seen first worker.new.stores }
{
    if worker.ending.is_some() {
        return;
    }
    let caller = Caller {
        number: program.caller,
        alloc,
        hold,
        round,
    };
    let (made, ending) = caller.make_all(
        rt,
        shared,
        &mut worker.pass,
        &mut worker.stores,
        program.deeds.as_slice(),
        worker.made,
    );
    worker.made = made;
    worker.ending = ending;
    if ending.is_none() {
        return;
    }
    worker.seen = shared.count(rt, &mut worker.pass);
    round.caller_is_back();
}

// So one worker of a thread.
fn make_one<W: Wait, H: Hold, S: Stores>(
    rt: &W,
    shared: &Shared,
    job: &Programs<'_, H>,
    place: usize,
    worker: &mut Worker<S>,
)
    requires lock { S.is_of shared.now.gate }
    requires place { place < length job.now.programs.now }
    requires may { All (MayRun shared.now.terms.config) job.now.programs.now }
    requires ready { WorkerMayGoOn shared.now job.now.programs.now place worker.old.pass worker.old.made }
    ensures ready { WorkerMayGoOn shared.now job.now.programs.now place worker.new.pass worker.new.made }
    ensures on { GoesOn S.bytes S.made S.mirrors shared.now job.now.programs.now place worker.old worker.new }
{
    make_program(
        rt,
        shared,
        job.alloc,
        job.hold,
        job.round,
        &job.programs[place],
        worker,
    );
}

// So each worker of a thread, whose first is that of a place.
fn go_over<W: Wait, H: Hold, S: Stores>(
    rt: &W,
    shared: &Shared,
    job: &Programs<'_, H>,
    start: usize,
    workers: &mut [Worker<S>],
)
    requires lock { S.is_of shared.now.gate }
    requires places { start + length workers.old ≤ length job.now.programs.now }
    requires may { All (MayRun shared.now.terms.config) job.now.programs.now }
    requires ready { AllPlaced (λ k w. WorkerMayGoOn shared.now job.now.programs.now (start + k) w.pass w.made) workers.old }
    ensures count { length workers.new ≡ length workers.old }
    ensures ready { AllPlaced (λ k w. WorkerMayGoOn shared.now job.now.programs.now (start + k) w.pass w.made) workers.new }
    ensures on { AllChanged (λ k. GoesOn S.bytes S.made S.mirrors shared.now job.now.programs.now (start + k)) workers.old workers.new }
{
    for k in 0..workers.len() {
        make_one(rt, shared, job, start + k, &mut workers[k]);
    }
}

// So where it is time for it.
pub(crate) fn go_over_where<W: Wait, H: Hold, S: Stores>(
    rt: &W,
    shared: &Shared,
    job: &Programs<'_, H>,
    start: usize,
    workers: &mut [Worker<S>],
    is_time: bool,
)
    requires places { start + length workers.old ≤ length job.now.programs.now }
    requires ready { AllPlaced (λ k w. WorkerMayGoOn shared.now job.now.programs.now (start + k) w.pass w.made × S.is_of shared.now.gate × All (MayRun shared.now.terms.config) job.now.programs.now) workers.old }
    ensures count { length workers.new ≡ length workers.old }
    ensures ready { AllPlaced (λ k w. WorkerMayGoOn shared.now job.now.programs.now (start + k) w.pass w.made × S.is_of shared.now.gate × All (MayRun shared.now.terms.config) job.now.programs.now) workers.new }
    ensures on { AllChanged (λ k. GoesOn S.bytes S.made S.mirrors shared.now job.now.programs.now (start + k)) workers.old workers.new }
{
    if is_time && !workers.is_empty() {
        go_over(rt, shared, job, start, workers);
    }
}

// Goes over them, whenever the driver had nothing left to do, until all are at their ends. It takes some looks for that, and then sleeps, for
// some milliseconds at most, before it goes over them again. While nobody makes turns it gives up after so many looks.
fn go_on<W: Wait, H: Hold, S: Stores>(
    rt: &W,
    shared: &Shared,
    job: &Programs<'_, H>,
    start: usize,
    workers: &mut [Worker<S>],
)
    requires lock { S.is_of shared.now.gate }
    requires places { start + length workers.old ≤ length job.now.programs.now }
    requires may { All (MayRun shared.now.terms.config) job.now.programs.now }
    requires ready { AllPlaced (λ k w. WorkerMayGoOn shared.now job.now.programs.now (start + k) w.pass w.made) workers.old }
    ensures ready { AllPlaced (λ k w. WorkerMayGoOn shared.now job.now.programs.now (start + k) w.pass w.made) workers.new }
    ensures on { AllChanged (λ k. GoesOn S.bytes S.made S.mirrors shared.now job.now.programs.now (start + k)) workers.old workers.new }
{
    let mut waiting = Waiting::begin(job.round);
    for _ in rt.forever() {
        let is_time = waiting.is_time(job.round);
        go_over_where(rt, shared, job, start, workers, is_time);
        if have_ended(workers) {
            return;
        }
        if waiting.gives_up(rt, job.round) {
            return;
        }
    }
    unreachable!()
}

// The work of a thread, which tells the round of each of its callers that it began and is back.
fn make_programs<W: Wait, H: Hold, S: Stores>(
    rt: &W,
    shared: &Shared,
    job: &Programs<'_, H>,
    start: usize,
    workers: &mut [Worker<S>],
)
    requires some { 0 < length workers.old }
    requires places { start + length workers.old ≤ length job.now.programs.now }
    requires ready { AllPlaced (λ k w. WorkerMayGoOn shared.now job.now.programs.now (start + k) w.pass w.made × S.is_of shared.now.gate × All (MayRun shared.now.terms.config) job.now.programs.now) workers.old }
    ensures { AllChanged (λ k old new. WorkerMayGoOn shared.now job.now.programs.now (start + k) new.pass new.made × GoesOn S.bytes S.made S.mirrors shared.now job.now.programs.now (start + k) old new) workers.old workers.new }
{
    job.round.callers_begin(workers.len() as u64);
    tell_back(job.round, workers, true);
    go_on(rt, shared, job, start, workers);
    tell_back(job.round, workers, false);
}

// Tells that those are back which are at their ends, or that the others are.
fn tell_back<S>(round: &Round, workers: &[Worker<S>], ended: bool) {
    for worker in workers {
        if worker.ending.is_some() == ended {
            round.caller_is_back();
        }
    }
}

impl<'a, H: Hold, S: Stores> ThreadWork<Shared, Worker<S>> for Programs<'a, H> {
    ghost use Rattle.std.specs.Prelude.{length, All};
    ghost use Rattle.nvm_callers.specs.Callers.{GoesOn, WorkerMayGoOn, MayRun};

    ghost ready = { λ j g place w. WorkerMayGoOn g j.programs.now place w.pass w.made × S.is_of g.gate × All (MayRun g.terms.config) j.programs.now };

    ghost done = { λ j g place old new. WorkerMayGoOn g j.programs.now place new.pass new.made × GoesOn S.bytes S.made S.mirrors g j.programs.now place old new };

    ghost count = { λ j. length j.programs.now };

    fn beside(&self, workers: usize) -> usize {
        if self.hold.may_share() {
            (workers - 1) / ONE_OF + 1
        } else {
            workers
        }
    }

    fn share(&self, workers: usize) -> usize {
        if self.hold.may_share() { workers } else { 1 }
    }

    fn work<W: Wait>(&self, rt: &W, shared: &Shared, start: usize, workers: &mut [Worker<S>]) {
        make_programs(rt, shared, self, start, workers);
    }
}
