// The command `soak`: many steps that a seed draws, and the summary of their history.
ghost use Rattle.std.specs.Prelude.{◌≡◌, ◌⊎◌, ◌<◌, [], IfOk, IfErr, IfSome, OnOk, Err};
ghost use Rattle.std.specs.Io.KnownBytes.{IsAtEnd};
ghost use Rattle.nvm_flash.specs.nv_base.Count.{Rose};
ghost use Rattle.nvm_script.specs.Played.{ArePlayed};
ghost use Rattle.script_soak.specs.Soak.{soak};
ghost use Rattle.nvm_top.specs.Causes.{HasCauses};
ghost use Rattle.nvm_top.specs.Ends.{HasScript};
ghost use Rattle.nvm_top.specs.Play.{IsBeforeAttach};
ghost use Rattle.nvm_top.specs.Promised.{HasNoRun, HasSoaked, played_call};
ghost use Rattle.nvm_top.specs.Reading.{IsEarly};
ghost use Rattle.nvm_top.specs.Soak.{IsSoakStop, SoakStopsBy};

use crate::play::play_flash;
use crate::runs::RunText;
use crate::script::{Script, take_script};
use nvm_flash::Flash;
use nvm_lines::nv_streams::{Sink, Source};
use nvm_lines::{Status, Stop, report};
use nvm_script::Mode;
use script_soak::soak_steps;
use std::alloc::{AllocError, Global};

/// The command behind its words.
pub(crate) fn soak<S: Source, K: Sink, F: Flash>(
    alloc: Global,
    seed: u32,
    count: u32,
    input: &mut S,
    output: &mut K,
    flash: F,
) -> (Status, F)
    requires { count < u32.MAX }
    ensures promise { HasSoaked (S.left input.old) (λ c. soak c seed count) (played_call (S.left input.old) result.0 (F.told flash) (F.told result.1) (K.written output.old) (K.written output.new))
        ⊎ HasNoRun (SoakStopsBy (S.left input.old) (S.faults input.old) (S.faults input.new) (F.told flash).bytes) (K.written output.old) (K.written output.new) result.0 (F.told flash) (F.told result.1) }
    ensures causes { HasCauses result.0 (S.faults input.old) (S.faults input.new) (K.faults output.old) (K.faults output.new) (S.left input.new) }
    ensures untouched { IsBeforeAttach result.0 → F.told result.1 ≡ F.told flash }
{
    match read_soaked(alloc, seed, count, input) {
        Ok(script) => play_flash(alloc, RunText::Summary, script, output, flash),
        Err(stop) => (report(alloc, stop, output), flash),
    }
}

/// The configuration of an input without steps, with those that a seed draws for it.
#[tactic(auto, using(script_soak::proofs::Played::soak_is_played))]
fn read_soaked<S: Source>(
    alloc: Global,
    seed: u32,
    count: u32,
    input: &mut S,
) -> Result<Script, Stop>
    requires { count < u32.MAX }
    ensures config { IfOk result (λ p. IfSome (S.left input.old) (λ bytes. HasScript Mode.Play bytes p.config [])) }
    ensures steps { IfOk result (λ p. p.steps ≡ soak p.config seed count) }
    ensures played { IfOk result (λ p. ArePlayed p.config p.steps) }
    ensures end { OnOk result (IsAtEnd (S.left input.new)) }
    ensures err { IfErr result (IsSoakStop (S.left input.old)) }
    ensures early { IfErr result IsEarly }
    ensures read_fault { result ≡ Err Stop.ReadFault → Rose (S.faults input.old) (S.faults input.new) }
{
    let Script { config, steps } = take_script(alloc, Mode::Play, input)?;
    if let Some(step) = steps.get(0) {
        return Err(Stop::BadScript { line: step.line() });
    }
    match soak_steps(alloc, &config, seed, count) {
        Ok(steps) => Ok(Script { config, steps }),
        Err(AllocError) => Err(Stop::Memory),
    }
}
