// The power cuts that steps plan.
ghost use Rattle.std.specs.Prelude.{◌≡◌};
ghost use Rattle.script_player.specs.Made.{cuts_in, cuts_of};

use nvm_script::{KeptStep, StepList};

/// How many power cuts steps plan.
pub fn cuts_of(steps: &StepList) -> u32
    ensures { result ≡ cuts_of steps.now }
{
    let mut cuts = 0;
    for i in 0..steps.len() {
        if let Some(step) = steps.get(i) {
            cuts += cuts_in(step);
        }
    }
    cuts
}

fn cuts_in(step: &KeptStep) -> u32
    ensures { result ≡ cuts_in step.now.kind }
{
    if step.is_cut() { 1 } else { 0 }
}
