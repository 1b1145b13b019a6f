// Jobs that a start-up drops.
ghost use Rattle.std.specs.Prelude.{◌≡◌, List, Option, [], Some, None};
ghost use Rattle.block_machine.specs.Words.{Configuration};
ghost use Rattle.block_machine.specs.State.{Job as MachineJob};
ghost use Rattle.block_machine.specs.Next.{next_in};
ghost use Rattle.block_machine.specs.Steps.{without_job};
ghost use Rattle.nv_desk.specs.Places.{AreHeld};

use crate::places::Places;
use block_machine::block_config::Config;
use job_pending::{PendingJobs, Take};

/// No job is pending any more: each gives its content back to its block's place. It takes no memory.
pub fn drop_jobs(config: &Config, jobs: &mut PendingJobs, places: &mut Places)
    ensures { (waiting : List MachineJob) (held : Option MachineJob) → AreHeld config.now jobs.old waiting held places.old → AreHeld config.now jobs.new [] None places.new }
{
    drop_hand(jobs, places);
    for _i in 0..config.blocks() + 1 {
        let Some(_next) = jobs.next() else {
            return;
        };
        drop_next(config, jobs, places);
    }
}

// The job in hand ends, if there is one.
fn drop_hand(jobs: &mut PendingJobs, places: &mut Places)
    ensures { (c : Configuration) (waiting : List MachineJob) (held : Option MachineJob) → AreHeld c jobs.old waiting held places.old → AreHeld c jobs.new waiting None places.new }
{
    let Some(job) = jobs.end() else {
        return;
    };
    let block = job.block();
    places.put(block, job.into_content());
}

// The next job comes in hand and ends, where none is in hand.
fn drop_next(config: &Config, jobs: &mut PendingJobs, places: &mut Places)
    ensures { (waiting : List MachineJob) (j : MachineJob) → AreHeld config.now jobs.old waiting None places.old → next_in config.now waiting ≡ Some j
        → AreHeld config.now jobs.new (without_job j.number waiting) None places.new }
{
    if jobs.hand().is_some() {
        return;
    }
    jobs.pick(config, Take::Nothing, None);
    drop_hand(jobs, places);
}
