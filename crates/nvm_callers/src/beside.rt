// Workers in threads, and a driver beside them in this one, all over one shared thing.
ghost use Rattle.std.specs.Prelude.{◌≡◌, ◌<◌, ◌≤◌, ◌+◌, ℕ, length};
ghost use Rattle.nvm_callers.specs.Placed.{AllChanged, AllPlaced};

use std::sync::Wait;
use std::thread;
use std::thread::{Threads, join_mut};

/// What the workers of a thread do in it, each by its place, from `start` on. `ready` holds of each before, and `done` of it before and
/// behind. A worker is a bare type parameter: a closure that is lent to a thread holds no `&mut` to a type that names a parameter inside.
pub trait ThreadWork<G, P> {
    ghost ready: { Self → G → ℕ → P → Type 0 };

    ghost done: { Self → G → ℕ → P → P → Type 0 };

    ghost count: { Self → ℕ };

    /// How many of so many workers work in threads beside the driver's: the others work in that.
    fn beside(&self, workers: usize) -> usize
        requires { 0 < workers }
        ensures { (0 < result) × (result ≤ workers) };

    /// How many of so many workers beside it a thread has.
    fn share(&self, workers: usize) -> usize
        requires { 0 < workers }
        ensures { 0 < result };

    fn work<W: Wait>(&self, rt: &W, shared: &G, start: usize, workers: &mut [P])
        requires some { 0 < length workers.old }
        requires places { start + length workers.old ≤ count self.now }
        requires ready { AllPlaced (λ place. ready self.now shared.now (start + place)) workers.old }
        ensures { AllChanged (λ place. done self.now shared.now (start + place)) workers.old workers.new };
}

/// What the driver does beside them, with the workers of its own thread. `ready` holds of it before, and `done` of it before and behind.
pub trait Drive<G, P, J: ThreadWork<G, P>> {
    ghost ready: { Self → G → Type 0 };

    ghost done: { Self → Self → G → Type 0 };

    fn drive<W: Wait>(&mut self, rt: &W, shared: &G, job: &J, start: usize, workers: &mut [P])
        requires ready { ready self.old shared.now }
        requires places { start + length workers.old ≤ J.count job.now }
        requires each { AllPlaced (λ place. J.ready job.now shared.now (start + place)) workers.old }
        ensures done { done self.old self.new shared.now }
        ensures count { length workers.new ≡ length workers.old }
        ensures each { AllChanged (λ place. J.done job.now shared.now (start + place)) workers.old workers.new };
}

fn work_from<W: Wait, G, P, J: ThreadWork<G, P>>(
    rt: &W,
    shared: &G,
    job: &J,
    start: usize,
    workers: &mut [P],
)
    requires some { 0 < length workers.old }
    requires places { start + length workers.old ≤ J.count job.now }
    requires ready { AllPlaced (λ place. J.ready job.now shared.now (start + place)) workers.old }
    ensures { AllChanged (λ place. J.done job.now shared.now (start + place)) workers.old workers.new }
{
    job.work(rt, shared, start, workers);
}

fn drive_on<W: Wait, G, P, J: ThreadWork<G, P>, K: Drive<G, P, J>>(
    rt: &W,
    shared: &G,
    job: &J,
    start: usize,
    workers: &mut [P],
    driver: &mut K,
)
    requires ready { K.ready driver.old shared.now }
    requires places { start + length workers.old ≤ J.count job.now }
    requires each { AllPlaced (λ place. J.ready job.now shared.now (start + place)) workers.old }
    ensures done { K.done driver.old driver.new shared.now }
    ensures count { length workers.new ≡ length workers.old }
    ensures each { AllChanged (λ place. J.done job.now shared.now (start + place)) workers.old workers.new }
{
    driver.drive(rt, shared, job, start, workers);
}

/// The workers, so many in each thread as the job says, where one can be made.
fn run_each<R: Threads + Wait + Sync, G: Sync, P: Send, J: ThreadWork<G, P> + Sync>(
    rt: &R,
    shared: &G,
    job: &J,
    workers: &mut [P],
)
    requires some { 0 < length workers.old }
    requires count { length workers.old ≤ J.count job.now }
    requires each { AllPlaced (J.ready job.now shared.now) workers.old }
    ensures count { length workers.new ≡ length workers.old }
    ensures each { AllChanged (J.done job.now shared.now) workers.old workers.new }
{
    let size = job.share(workers.len());
    let part = |start: usize, some: &mut [P]|
        requires { (0 < length some.now) × (start + length some.now ≤ J.count job.now) × AllPlaced (λ place. J.ready job.now shared.now (start + place)) some.now }
        ensures { AllChanged (λ place. J.done job.entry.now shared.entry.now (start + place)) some.entry.now some.exit.now }
    { work_from(rt, shared, job, start, some) };
    thread::for_each_chunk_mut(rt, workers, size, &part);
}

/// The first workers in threads, and beside them the driver, in this one, with the others. Where no thread can be made the driver comes
/// first, and the workers behind it.
pub fn run_beside<
    R: Threads + Wait + Sync,
    G: Sync,
    P: Send,
    J: ThreadWork<G, P> + Sync,
    K: Drive<G, P, J>,
>(rt: &R, shared: &G, job: &J, workers: &mut [P], driver: &mut K)
    requires some { 0 < length workers.old }
    requires count { length workers.old ≡ J.count job.now }
    requires each { AllPlaced (J.ready job.now shared.now) workers.old }
    requires ready { K.ready driver.old shared.now }
    ensures count { length workers.new ≡ length workers.old }
    ensures each { AllChanged (J.done job.now shared.now) workers.old workers.new }
    ensures done { K.done driver.old driver.new shared.now }
{
    let start = job.beside(workers.len());
    let (others, own) = workers.split_at_mut(start);
    join_mut(
        rt,
        &mut ||
            requires { (0 < length others.now) × (length others.now ≤ J.count job.now) × AllPlaced (J.ready job.now shared.now) others.now }
            ensures { (length others.exit.now ≡ length others.entry.now) × AllChanged (J.done job.entry.now shared.entry.now) others.entry.now others.exit.now }
        { run_each(rt, shared, job, others) },
        &mut ||
            requires { K.ready driver.now shared.now × (start + length own.now ≤ J.count job.now) × AllPlaced (λ place. J.ready job.now shared.now (start + place)) own.now }
            ensures { K.done driver.entry.now driver.exit.now shared.entry.now × (length own.exit.now ≡ length own.entry.now) × AllChanged (λ place. J.done job.entry.now shared.entry.now (start + place)) own.entry.now own.exit.now }
        { drive_on(rt, shared, job, start, own, driver) },
    );
}
