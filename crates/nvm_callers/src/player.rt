// A run of callers.
ghost use Rattle.std.specs.Prelude.{◌≡◌, true, IfErr, IfOk};
ghost use Rattle.driver_moves.specs.nvm_shared.Opening.{IsFirst};
ghost use Rattle.script_callers.specs.RunScripts.{AreRun};
ghost use Rattle.nvm_callers.specs.Ran.{KeepsOrder, WasRun};

use crate::Ending;
use crate::mirrored::run_programs;
use driver_moves::nvm_shared::share;
use driver_moves::{Config, Desk, MemDevice, PlainSync, Stack};
use nvm_script::StepList;
use script_callers::callers;
use std::alloc::Global;
use std::marker::Brand;
use std::sync::Wait;
use std::thread::Threads;

/// How callers ended, with their history and the device.
#[derive(Drop)]
pub struct Ran<D: MemDevice> {
    pub ending: Ending,
    pub desk: Desk,
    pub device: D,
}

/// Runs a script's callers on the stack of a configuration behind its first start-up, whose application stored nothing yet, until
/// nothing is pending or the power is off. It waits. Where there is no memory to begin with, the device is handed back.
pub fn play_callers<R: Threads + Wait + Sync, D: MemDevice>(
    rt: &R,
    alloc: Global,
    config: &Config,
    stack: Stack<D, PlainSync>,
    steps: &StepList,
) -> Result<Ran<D>, D>
    requires ready { stack.ready ≡ true }
    requires first { IsFirst stack.desk.entries }
    requires own { config.now ≡ stack.desk.config }
    requires steps { AreRun config.now steps.now }
    ensures memory { IfErr result (λ device. device ≡ stack.device) }
    ensures ran { IfOk result (λ r. WasRun D.told D.clock stack r.ending r.desk r.device) }
    ensures order { IfOk result (λ r. KeepsOrder steps.now r.ending r.desk) }
{
    let Ok(programs) = callers(alloc, config, steps) else {
        return Err(stack.into_device());
    };
    let _device = stack.device();
    let _few = steps.len();
    match share(alloc, stack) {
        Ok((shared, pass, driver)) => {
            run_programs::<R, D, Brand>(
                rt,
                alloc,
                config,
                shared,
                pass,
                driver,
                programs.as_slice(),
            )
        }
        Err(failed) => Err(failed.device),
    }
}
