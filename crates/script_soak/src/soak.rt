// The script of a soak run.
ghost use Rattle.std.specs.Prelude.{◌≡◌, ◌<◌, IfOk};
ghost use Rattle.script_soak.specs.Soak.{soak, step_at};

use crate::draws::Draws;
use crate::rounds::step_drawn;
use block_config::Config;
use nvm_script::{Step, StepKind, StepList};
use std::alloc::{AllocError, Global};

/// The steps that a seed draws for so many rounds: each is a write, a read, turns, or a start-up; and behind the last
/// one all that is pending is done. A step's line is its place from 1, and its caller is 0.
pub fn soak_steps(
    alloc: Global,
    config: &Config,
    seed: u32,
    count: u32,
) -> Result<StepList, AllocError>
    requires { count < u32.MAX }
    ensures { IfOk result (λ steps. steps ≡ soak config.now seed count) }
{
    let mut draws = Draws {
        state: u64::from(seed),
    };
    let mut steps = StepList::new(alloc);
    for round in 0..count {
        let kind = step_drawn(alloc, config, draws.next(), draws.next(), draws.next())?;
        steps.add(step_at(round, kind))?;
    }
    if count > 0 {
        steps.add(step_at(count, StepKind::Drain))?;
    }
    Ok(steps)
}

// The step at a place from 0.
fn step_at(place: u32, kind: StepKind) -> Step
    requires { place < u32.MAX }
    ensures { result ≡ step_at place kind }
{
    Step {
        line: place + 1,
        caller: 0,
        kind,
    }
}
