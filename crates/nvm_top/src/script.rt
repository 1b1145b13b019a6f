// What `play`, `run` and `soak` read: a configuration, and the steps of a script for it.
ghost use Rattle.std.specs.Prelude.{◌≡◌, ◌≤◌, ◌<◌, [], Ok, Err, IfOk, IfErr, IfSome, OnOk, length};
ghost use Rattle.std.specs.Io.KnownBytes.{IsAtEnd};
ghost use Rattle.nvm_flash.specs.nv_base.Count.{Rose};
ghost use Rattle.nvm_script.specs.Script.{IsScript, later_lines};
ghost use Rattle.nvm_top.specs.Ends.{HasScript};
ghost use Rattle.nvm_top.specs.Reading.{AreMadeIn, IsEarly, IsLineStop, IsScriptStop, IsStepsStop};

use nvm_flash::Config;
use nvm_lines::nv_streams::Source;
use nvm_lines::{LIMIT, Stop, read_config, read_input};
use nvm_script::{Mode, ScriptFault, StepList, read_script};
use std::alloc::Global;

/// A configuration with the steps of a script for it.
#[derive(Drop)]
pub struct Script {
    pub config: Config,
    pub steps: StepList,
}

/// The configuration and the steps of the input, all of them of this mode.
pub fn take_script<S: Source>(alloc: Global, mode: Mode, input: &mut S) -> Result<Script, Stop>
    ensures steps { IfOk result (λ p. IfSome (S.left input.old) (λ bytes. HasScript mode bytes p.config p.steps)) }
    ensures made { IfOk result (λ p. AreMadeIn mode p.config p.steps) }
    ensures end { OnOk result (IsAtEnd (S.left input.new)) }
    ensures err { IfErr result (IsStepsStop mode (S.left input.old)) }
    ensures early { IfErr result IsEarly }
    ensures read_fault { result ≡ Err Stop.ReadFault → Rose (S.faults input.old) (S.faults input.new) }
{
    let bytes = read_input(alloc, input)?;
    let script = script_of(alloc, mode, &bytes)?;
    Ok(script)
}

/// Those of its bytes.
pub fn script_of(alloc: Global, mode: Mode, input: &[u8]) -> Result<Script, Stop>
    requires short { length input.now ≤ LIMIT }
    ensures steps { IfOk result (λ p. HasScript mode input.now p.config p.steps) }
    ensures made { IfOk result (λ p. AreMadeIn mode p.config p.steps) }
    ensures err { IfErr result (IsScriptStop mode input.now) }
    ensures early { IfErr result IsEarly }
{
    let config = read_config(alloc, input)?;
    let steps = steps_of(alloc, mode, input, &config)?;
    Ok(Script { config, steps })
}

#[tactic(auto, using(crate::proofs::Scripts::scripts_are_made))]
fn steps_of(alloc: Global, mode: Mode, input: &[u8], config: &Config) -> Result<StepList, Stop>
    requires short { length input.now < u32.MAX }
    ensures ok { IfOk result (λ steps. IsScript config.now mode 2 [] (later_lines input.now) steps) }
    ensures made { IfOk result (λ steps. AreMadeIn mode config.now steps) }
    ensures err { IfErr result (IsLineStop mode config.now (later_lines input.now)) }
{
    match read_script(alloc, input, config, mode) {
        Ok(steps) => Ok(steps),
        Err(ScriptFault::Line { number }) => Err(Stop::BadScript { line: number }),
        Err(ScriptFault::Memory) => Err(Stop::Memory),
    }
}
