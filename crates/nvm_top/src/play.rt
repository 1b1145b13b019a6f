// The command `play`: the steps of a person over one flash, with their history.
ghost use Rattle.std.specs.Prelude.{◌≡◌, ◌⊎◌, ℕ, List, Option};
ghost use Rattle.nvm_flash.specs.nv_base.Count.{Rose};
ghost use Rattle.nvm_flash.specs.Made.{IsOrigin};
ghost use Rattle.nvm_script.specs.Played.{ArePlayed};
ghost use Rattle.script_player.specs.Made.{cuts_of};
ghost use Rattle.nvm_top.specs.Causes.{HasCauses};
ghost use Rattle.nvm_top.specs.Play.{IsBeforeAttach, IsFlashStop, StepsStopBy};
ghost use Rattle.nvm_top.specs.Promised.{EndsIn, HasNoRun, HasPromise, HasRun, played_call};

use crate::flashes::Flashes;
use crate::made::{Made, make_run};
use crate::runs::{RunText, stop_of, write_text};
use crate::script::{Script, take_script};
use crate::stack::OneFlash;
use crate::values::history_values;
use nvm_flash::{Flash, Origin};
use nvm_lines::nv_streams::{Sink, Source};
use nvm_lines::{Status, report};
use nvm_script::Mode;
use std::alloc::Global;
use std::marker::{Brand, PhantomData};

/// The command behind its words.
pub(crate) fn play<S: Source, K: Sink, F: Flash>(
    alloc: Global,
    input: &mut S,
    output: &mut K,
    flash: F,
) -> (Status, F)
    ensures promise { HasPromise (played_call (S.left input.old) result.0 (F.told flash) (F.told result.1) (K.written output.old) (K.written output.new))
        ⊎ HasNoRun (StepsStopBy Mode.Play (S.left input.old) (S.faults input.old) (S.faults input.new) (F.told flash).bytes) (K.written output.old) (K.written output.new) result.0 (F.told flash) (F.told result.1) }
    ensures causes { HasCauses result.0 (S.faults input.old) (S.faults input.new) (K.faults output.old) (K.faults output.new) (S.left input.new) }
    ensures untouched { IsBeforeAttach result.0 → F.told result.1 ≡ F.told flash }
{
    match take_script(alloc, Mode::Play, input) {
        Ok(script) => play_flash(alloc, RunText::History, script, output, flash),
        Err(stop) => (report(alloc, stop, output), flash),
    }
}

/// Plays steps on a flash, and writes their history or its summary.
pub(crate) fn play_flash<K: Sink, F: Flash>(
    alloc: Global,
    text: RunText,
    script: Script,
    output: &mut K,
    flash: F,
) -> (Status, F)
    requires played { ArePlayed script.config script.steps }
    ensures promise { (input : Option (List ℕ))
        → HasRun Mode.Play script.config script.steps (EndsIn text (played_call input result.0 (F.told flash) (F.told result.1) (K.written output.old) (K.written output.new))) (F.told flash) (F.told result.1)
        ⊎ HasNoRun (IsFlashStop script.config (F.told flash).bytes) (K.written output.old) (K.written output.new) result.0 (F.told flash) (F.told result.1) }
    ensures late { IsBeforeAttach result.0 → ⊥ }
    ensures write_fault { result.0 ≡ Status.WriteFault → Rose (K.faults output.old) (K.faults output.new) }
{
    play_steps::<K, F, Brand>(alloc, text, script, output, flash)
}

// So over the stack of a device of this origin.
fn play_steps<K: Sink, F: Flash, O: Origin>(
    alloc: Global,
    text: RunText,
    script: Script,
    output: &mut K,
    flash: F,
) -> (Status, F)
    requires origin { IsOrigin script.config (F.told flash) (cuts_of script.steps) O.making O.entry }
    requires played { ArePlayed script.config script.steps }
    ensures promise { (input : Option (List ℕ))
        → HasRun Mode.Play script.config script.steps (EndsIn text (played_call input result.0 (F.told flash) (F.told result.1) (K.written output.old) (K.written output.new))) (F.told flash) (F.told result.1)
        ⊎ HasNoRun (IsFlashStop script.config (F.told flash).bytes) (K.written output.old) (K.written output.new) result.0 (F.told flash) (F.told result.1) }
    ensures late { IsBeforeAttach result.0 → ⊥ }
    ensures write_fault { result.0 ≡ Status.WriteFault → Rose (K.faults output.old) (K.faults output.new) }
{
    let handed = OneFlash::<F, O> {
        flash,
        origin: PhantomData,
    };
    match make_run(alloc, script, handed) {
        Ok(Made { end, stack }) => {
            let history = stack.history();
            history_values(history);
            let status = write_text(alloc, text, stop_of(end), history, output);
            let device = stack.into_device();
            let OneFlash { flash, .. } = OneFlash::<F, O>::back(device);
            (status, flash)
        }
        Err((stop, OneFlash { flash, .. })) => (report(alloc, stop, output), flash),
    }
}
