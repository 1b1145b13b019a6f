// The driver's turns beside the callers, and behind them.
ghost use Rattle.std.specs.Prelude.{◌≡◌, ◌≤◌, ◌^◌, ◌+◌, true, length, is_some, Option, All, IsTrue};
ghost use Rattle.driver_moves.specs.job_progress.Hand.{HandState};
ghost use Rattle.turn_gate.specs.Pass.{knows};
ghost use Rattle.driver_moves.specs.nvm_moves.script_walks.Runs.{has_ended};
ghost use Rattle.driver_moves.specs.nvm_shared.Driving.{IsDriverOf, NeedsNoMore};
ghost use Rattle.nvm_callers.specs.Callers.{GoesOn, MayRun, WorkerMayGoOn};
ghost use Rattle.nvm_callers.specs.Placed.{AllChanged, AllPlaced};
ghost use Rattle.nvm_callers.specs.Steering.{HasSteered, TellsAlways};

use crate::beside::Drive;
use crate::callers::have_ended;
use crate::hold::Hold;
use crate::programs::{Programs, go_over_where};
use crate::round::{MOST_LOOKS, Round};
use crate::stores::Stores;
use crate::threads::Worker;
use driver_moves::nvm_shared::{Driver, NotedCopies, Shared, StackPass};
use driver_moves::{MemDevice, Turned};
use std::sync::Wait;
use std::thread;

/// A driver with its pass, which makes turns in a round until the callers are back.
#[derive(Drop)]
pub struct SteeringOf<'a, P, T> {
    pub pass: P,
    pub driver: T,
    pub round: &'a Round,
}

/// Of a shared stack. It is an alias, as `Worker`.
pub type Steering<'a, D, C> = SteeringOf<'a, StackPass, Driver<D, C>>;

// A turn, and whether it found nothing to do: then the driver rests until callers call it, if those of its thread are at their ends.
fn make_turn<W: Wait, D: MemDevice, C: NotedCopies + Drop>(
    rt: &W,
    shared: &Shared,
    pass: &mut StackPass,
    driver: &mut Driver<D, C>,
    round: &Round,
    ended: bool,
) -> bool
    requires driver { IsDriverOf D.told D.clock C.told shared.now pass.old driver.old }
    requires telling { TellsAlways D.told shared.now.terms }
    requires lock { C.is_of shared.now.gate }
    ensures driver { IsDriverOf D.told D.clock C.told shared.now pass.new driver.new }
    ensures steers { HasSteered D.told D.clock C.told C.is_store C.looked C.over C.stands shared.now.terms (knows pass.old) (knows pass.new) driver.old driver.new }
{
    let news = round.news();
    let turned = shared.turn(rt, pass, driver);
    give_way(rt, round, news, turned, ended)
}

// Whether a turn found nothing to do when so many requests were told. Most turns do something: it is a part of its caller.
#[inline(always)]
fn give_way<W: Wait>(rt: &W, round: &Round, news: u64, turned: Turned, ended: bool) -> bool {
    match turned {
        Turned::Idle | Turned::Off => {
            if ended {
                round.rest(rt, news);
            } else {
                round.pause(news);
            }
            true
        }
        Turned::Picked | Turned::Posted | Turned::Worked => false,
    }
}

// Turns until so many callers are back, and those of this thread are at their ends: they go on whenever a turn found nothing to do. Where
// none of the others begins, since none has a thread, it gives up after so many looks.
fn steer<W: Wait, D: MemDevice, C: NotedCopies + Drop, H: Hold, S: Stores>(
    rt: &W,
    shared: &Shared,
    pass: &mut StackPass,
    driver: &mut Driver<D, C>,
    round: &Round,
    callers: u64,
    job: &Programs<'_, H>,
    start: usize,
    workers: &mut [Worker<S>],
)
    requires driver { IsDriverOf D.told D.clock C.told shared.now pass.old driver.old }
    requires telling { TellsAlways D.told shared.now.terms }
    requires lock { C.is_of shared.now.gate }
    requires places { start + length workers.old ≤ length job.now.programs.now }
    requires ready { AllPlaced (λ k w. WorkerMayGoOn shared.now job.now.programs.now (start + k) w.pass w.made × S.is_of shared.now.gate × All (MayRun shared.now.terms.config) job.now.programs.now) workers.old }
    ensures driver { IsDriverOf D.told D.clock C.told shared.now pass.new driver.new }
    ensures steers { HasSteered D.told D.clock C.told C.is_store C.looked C.over C.stands shared.now.terms (knows pass.old) (knows pass.new) driver.old driver.new }
    ensures count { length workers.new ≡ length workers.old }
    ensures ready { AllPlaced (λ k w. WorkerMayGoOn shared.now job.now.programs.now (start + k) w.pass w.made × S.is_of shared.now.gate × All (MayRun shared.now.terms.config) job.now.programs.now) workers.new }
    ensures on { AllChanged (λ k. GoesOn S.bytes S.made S.mirrors shared.now job.now.programs.now (start + k)) workers.old workers.new }
{
    let mut left = MOST_LOOKS;
    let mut idle = true;
    for _ in rt.forever() {
        go_over_where(rt, shared, job, start, workers, idle);
        let ended = have_ended(workers);
        if left == 0 || (ended && round.are_back(callers)) {
            return;
        }
        if ended && !round.has_begun() {
            left -= 1;
        }
        idle = make_turn(rt, shared, pass, driver, round, ended);
    }
    unreachable!()
}

impl<'a, 'b, D: MemDevice, C: NotedCopies + Drop, H: Hold, S: Stores> Drive<
    Shared,
    Worker<S>,
    Programs<'b, H>,
> for Steering<'a, D, C> {
    ghost use Rattle.turn_gate.specs.Pass.{knows};
    ghost use Rattle.driver_moves.specs.nvm_shared.Driving.{IsDriverOf};
    ghost use Rattle.nvm_callers.specs.Steering.{HasSteered, TellsAlways};

    ghost ready = { λ s g. IsDriverOf D.told D.clock C.told g s.pass s.driver × TellsAlways D.told g.terms × C.is_of g.gate };

    ghost done = { λ old new g. IsDriverOf D.told D.clock C.told g new.pass new.driver × HasSteered D.told D.clock C.told C.is_store C.looked C.over C.stands g.terms (knows old.pass) (knows new.pass) old.driver new.driver };

    fn drive<W: Wait>(
        &mut self,
        rt: &W,
        shared: &Shared,
        job: &Programs<'b, H>,
        start: usize,
        workers: &mut [Worker<S>],
    ) {
        let _driven = self.round.drive();
        let own = Round::new();
        let here = Programs {
            alloc: job.alloc,
            programs: job.programs,
            hold: job.hold,
            round: &own,
        };
        steer(
            rt,
            shared,
            &mut self.pass,
            &mut self.driver,
            self.round,
            start as u64,
            &here,
            start,
            workers,
        );
    }
}

/// Sees so many entries at the least, without a turn.
pub(crate) fn see<W: Wait, D: MemDevice, C: NotedCopies + Drop>(
    rt: &W,
    shared: &Shared,
    pass: &mut StackPass,
    driver: &Driver<D, C>,
    entries: u32,
)
    requires driver { IsDriverOf D.told D.clock C.told shared.now pass.old driver.now }
    ensures driver { IsDriverOf D.told D.clock C.told shared.now pass.new driver.now }
    ensures steers { HasSteered D.told D.clock C.told C.is_store C.looked C.over C.stands shared.now.terms (knows pass.old) (knows pass.new) driver.now driver.now }
    ensures seen { entries ≤ length (knows pass.new).seen }
{
    for _ in rt.forever() {
        if entries <= shared.count_with(rt, pass, driver) {
            return;
        }
        thread::yield_now();
    }
    unreachable!()
}

/// Turns until one that is idle or finds the power off, or that without a job in hand counts a fault. Where no other pass is out,
/// nothing is pending then, or the power is off.
pub(crate) fn come_to_rest<W: Wait, D: MemDevice, C: NotedCopies + Drop>(
    rt: &W,
    shared: &Shared,
    pass: &mut StackPass,
    driver: &mut Driver<D, C>,
)
    requires driver { IsDriverOf D.told D.clock C.told shared.now pass.old driver.old }
    requires telling { TellsAlways D.told shared.now.terms }
    requires lock { C.is_of shared.now.gate }
    ensures driver { IsDriverOf D.told D.clock C.told shared.now pass.new driver.new }
    ensures steers { HasSteered D.told D.clock C.told C.is_store C.looked C.over C.stands shared.now.terms (knows pass.old) (knows pass.new) driver.old driver.new }
    ensures ends { (knows pass.old).parts ≡ 2 ^ 64 → IsTrue (has_ended shared.now.terms.config (knows pass.new).seen) }
{
    for _ in rt.forever() {
        if ends_turns(rt, shared, pass, driver) {
            return;
        }
    }
    unreachable!()
}

// Makes a turn, and tells whether none need follow it.
fn ends_turns<W: Wait, D: MemDevice, C: NotedCopies + Drop>(
    rt: &W,
    shared: &Shared,
    pass: &mut StackPass,
    driver: &mut Driver<D, C>,
) -> bool
    requires driver { IsDriverOf D.told D.clock C.told shared.now pass.old driver.old }
    requires telling { TellsAlways D.told shared.now.terms }
    requires lock { C.is_of shared.now.gate }
    ensures driver { IsDriverOf D.told D.clock C.told shared.now pass.new driver.new }
    ensures steers { HasSteered D.told D.clock C.told C.is_store C.looked C.over C.stands shared.now.terms (knows pass.old) (knows pass.new) driver.old driver.new }
    ensures ends { result ≡ true → (knows pass.old).parts ≡ 2 ^ 64 → IsTrue (has_ended shared.now.terms.config (knows pass.new).seen) }
{
    let busy = driver.is_busy();
    let faults = driver.faults();
    let turned = shared.turn(rt, pass, driver);
    let risen = has_risen(faults, driver.faults());
    is_last(turned, busy, risen)
}

// Whether a turn is the last one: it had nothing to do, it found the power off, or without a job in hand it counted a fault.
fn is_last(turned: Turned, busy: bool, risen: bool) -> bool
    ensures { (hand : Option HandState) → busy ≡ is_some hand → result ≡ true → NeedsNoMore turned hand }
{
    match turned {
        Turned::Idle | Turned::Off => true,
        Turned::Worked => !busy && risen,
        Turned::Picked | Turned::Posted => false,
    }
}

// Whether a count rose, or stands at its end.
fn has_risen(before: u64, after: u64) -> bool {
    before < after || before == u64::MAX
}
