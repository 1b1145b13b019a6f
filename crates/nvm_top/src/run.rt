// The command `run`: the callers of a script beside each other over one flash, with their one history.
ghost use Rattle.std.specs.Prelude.{◌≡◌, ◌⊎◌, ℕ, List, Option};
ghost use Rattle.nvm_flash.specs.nv_base.Count.{Rose};
ghost use Rattle.nvm_flash.specs.Made.{IsOrigin};
ghost use Rattle.nvm_callers.specs.script_callers.RunScripts.{AreRun};
ghost use Rattle.nvm_top.specs.Causes.{HasCauses};
ghost use Rattle.nvm_top.specs.Play.{IsBeforeAttach, IsFlashStop, StepsStopBy};
ghost use Rattle.nvm_top.specs.Promised.{EndsIn, HasNoRun, HasPromise, HasRun, call_by};
ghost use Rattle.nvm_top.specs.Running.{stop_of_ending};

use crate::callers::{Callers, take_callers};
use crate::flashes::Flashes;
use crate::runs::{RunText, write_text};
use crate::stack::OneFlash;
use crate::values::history_values;
use nvm_callers::{Ending, Ran, play_callers};
use nvm_flash::{Config, Flash, Origin};
use nvm_lines::nv_streams::{Sink, Source};
use nvm_lines::{Status, Stop, report};
use nvm_script::{Mode, StepList};
use std::alloc::Global;
use std::marker::{Brand, PhantomData};
use std::sync::Wait;
use std::thread::Threads;

/// The command behind its words.
pub(crate) fn run<R: Threads + Wait + Sync, S: Source, K: Sink, F: Flash>(
    rt: &R,
    alloc: Global,
    input: &mut S,
    output: &mut K,
    flash: F,
) -> (Status, F)
    ensures promise { HasPromise (call_by Mode.Run (S.left input.old) result.0 (F.told flash) (F.told result.1) (K.written output.old) (K.written output.new))
        ⊎ HasNoRun (StepsStopBy Mode.Run (S.left input.old) (S.faults input.old) (S.faults input.new) (F.told flash).bytes) (K.written output.old) (K.written output.new) result.0 (F.told flash) (F.told result.1) }
    ensures causes { HasCauses result.0 (S.faults input.old) (S.faults input.new) (K.faults output.old) (K.faults output.new) (S.left input.new) }
    ensures untouched { IsBeforeAttach result.0 → F.told result.1 ≡ F.told flash }
{
    match take_callers(alloc, input) {
        Ok(callers) => run_flash(rt, alloc, callers, output, flash),
        Err(stop) => (report(alloc, stop, output), flash),
    }
}

// Runs callers over a flash, and writes their history.
fn run_flash<R: Threads + Wait + Sync, K: Sink, F: Flash>(
    rt: &R,
    alloc: Global,
    callers: Callers,
    output: &mut K,
    flash: F,
) -> (Status, F)
    requires own { callers.own ≡ callers.config }
    requires run { AreRun callers.config callers.steps }
    ensures promise { (input : Option (List ℕ))
        → HasRun Mode.Run callers.config callers.steps (EndsIn RunText.History (call_by Mode.Run input result.0 (F.told flash) (F.told result.1) (K.written output.old) (K.written output.new))) (F.told flash) (F.told result.1)
        ⊎ HasNoRun (IsFlashStop callers.config (F.told flash).bytes) (K.written output.old) (K.written output.new) result.0 (F.told flash) (F.told result.1) }
    ensures late { IsBeforeAttach result.0 → ⊥ }
    ensures write_fault { result.0 ≡ Status.WriteFault → Rose (K.faults output.old) (K.faults output.new) }
{
    let Callers { config, own, steps } = callers;
    run_with_origin::<R, K, F, Brand>(rt, alloc, config, &own, &steps, output, flash)
}

// So over the stack of a device of this origin.
fn run_with_origin<R: Threads + Wait + Sync, K: Sink, F: Flash, O: Origin>(
    rt: &R,
    alloc: Global,
    config: Config,
    own: &Config,
    steps: &StepList,
    output: &mut K,
    flash: F,
) -> (Status, F)
    requires origin { IsOrigin config (F.told flash) 0 O.making O.entry }
    requires own { own.now ≡ config }
    requires run { AreRun config steps.now }
    ensures promise { (input : Option (List ℕ))
        → HasRun Mode.Run config steps.now (EndsIn RunText.History (call_by Mode.Run input result.0 (F.told flash) (F.told result.1) (K.written output.old) (K.written output.new))) (F.told flash) (F.told result.1)
        ⊎ HasNoRun (IsFlashStop config (F.told flash).bytes) (K.written output.old) (K.written output.new) result.0 (F.told flash) (F.told result.1) }
    ensures late { IsBeforeAttach result.0 → ⊥ }
    ensures write_fault { result.0 ≡ Status.WriteFault → Rose (K.faults output.old) (K.faults output.new) }
{
    let handed = OneFlash::<F, O> {
        flash,
        origin: PhantomData,
    };
    match handed.start(alloc, config, 0) {
        Ok(stack) => {
            history_values(stack.history());
            match play_callers(rt, alloc, own, stack, steps) {
                Ok(
                    Ran {
                        ending,
                        desk,
                        device,
                    },
                ) => {
                    let history = desk.history();
                    history_values(history);
                    let run = stop_of_ending(ending);
                    let status = write_text(alloc, RunText::History, run, history, output);
                    let OneFlash { flash, .. } = OneFlash::<F, O>::back(device);
                    (status, flash)
                }
                Err(device) => {
                    let OneFlash { flash, .. } = OneFlash::<F, O>::back(device);
                    (Status::Memory, flash)
                }
            }
        }
        Err((stop, OneFlash { flash, .. })) => (report(alloc, stop, output), flash),
    }
}

// How the command ends, by how its callers ended.
fn stop_of_ending(ending: Ending) -> Result<(), Stop>
    ensures { result ≡ stop_of_ending ending }
{
    match ending {
        Ending::All => Ok(()),
        Ending::NoRoom => Err(Stop::HistoryFull),
        Ending::Memory => Err(Stop::Memory),
    }
}
