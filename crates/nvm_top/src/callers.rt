// What `run` reads: a configuration, and the steps of callers for it.
ghost use Rattle.std.specs.Prelude.{◌≡◌, ◌≤◌, Err, IfOk, IfErr, IfSome, OnOk, length};
ghost use Rattle.std.specs.Io.KnownBytes.{IsAtEnd};
ghost use Rattle.nvm_flash.specs.nv_base.Count.{Rose};
ghost use Rattle.nvm_callers.specs.script_callers.RunScripts.{AreRun};
ghost use Rattle.nvm_top.specs.Ends.{HasScript};
ghost use Rattle.nvm_top.specs.Reading.{IsEarly, IsScriptStop, IsStepsStop};

use crate::script::{Script, script_of};
use nvm_flash::Config;
use nvm_lines::nv_streams::Source;
use nvm_lines::{LIMIT, Stop, read_input};
use nvm_script::{Mode, StepList};
use std::alloc::Global;

/// A configuration twice, for the stack and for its callers, with their steps.
#[derive(Drop)]
pub struct Callers {
    pub config: Config,
    pub own: Config,
    pub steps: StepList,
}

/// The configuration and the callers' steps of the input.
pub fn take_callers<S: Source>(alloc: Global, input: &mut S) -> Result<Callers, Stop>
    ensures steps { IfOk result (λ p. IfSome (S.left input.old) (λ bytes. HasScript Mode.Run bytes p.config p.steps)) }
    ensures own { IfOk result (λ p. p.own ≡ p.config) }
    ensures run { IfOk result (λ p. AreRun p.config p.steps) }
    ensures end { OnOk result (IsAtEnd (S.left input.new)) }
    ensures err { IfErr result (IsStepsStop Mode.Run (S.left input.old)) }
    ensures early { IfErr result IsEarly }
    ensures read_fault { result ≡ Err Stop.ReadFault → Rose (S.faults input.old) (S.faults input.new) }
{
    let bytes = read_input(alloc, input)?;
    let callers = callers_of(alloc, &bytes)?;
    Ok(callers)
}

fn callers_of(alloc: Global, input: &[u8]) -> Result<Callers, Stop>
    requires short { length input.now ≤ LIMIT }
    ensures steps { IfOk result (λ p. HasScript Mode.Run input.now p.config p.steps) }
    ensures own { IfOk result (λ p. p.own ≡ p.config) }
    ensures run { IfOk result (λ p. AreRun p.config p.steps) }
    ensures err { IfErr result (IsScriptStop Mode.Run input.now) }
    ensures early { IfErr result IsEarly }
{
    let Script { config, steps } = script_of(alloc, Mode::Run, input)?;
    let own = config.copied(alloc)?;
    Ok(Callers { config, own, steps })
}
