// The steps of a script.
ghost use Rattle.std.specs.Prelude.{◌≡◌, ◌<◌, ◌≤◌, ◌+◌, [], length, IfOk, IfErr, OnOk};
ghost use Rattle.nvm_script.specs.Line.{without_return, IsRead};
ghost use Rattle.nvm_script.specs.Script.{IsScript, first_line, later_lines};
ghost use Rattle.nvm_script.specs.ScriptReading.{Owns, AddsLine, NamesFirstWrong};

use crate::caller::caller_of;
use crate::cut::cut;
use crate::owners::Owners;
use crate::spelling::step_of;
use crate::{Step, StepKind, StepList};
use block_config::Config;
use std::alloc::{AllocError, AllocFailed, Global};

/// Whose steps a script has: of one player, or of callers that run side by side.
#[derive(Clone, Copy)]
pub enum Mode {
    Play,
    Run,
}

/// Why a script isn't read: a line that is no step, by its number from 1, or no memory was left.
#[derive(Clone, Copy)]
pub enum ScriptFault {
    Line { number: u32 },
    Memory,
}

impl From<AllocError> for ScriptFault {
    ghost use Rattle.std.specs.Prelude.{◌≡◌};
    ghost use Rattle.nvm_script.specs.declared.script.ScriptFault.TheVariants.{Memory};

    ghost from_gives = { λ _ e. e ≡ Memory };

    fn from(_error: AllocError) -> ScriptFault {
        ScriptFault::Memory
    }
}

// What a line is.
#[derive(Drop)]
enum Line {
    Idle,
    Step { caller: u8, kind: StepKind },
    Wrong,
}

fn without_return(line: &[u8]) -> &[u8]
    ensures { result.now ≡ without_return line.now }
{
    if !line.is_empty() && line[line.len() - 1] == b'\r' {
        return &line[..line.len() - 1];
    }
    line
}

// What the line is, apart from who owns its block's RAM.
fn read_line(alloc: Global, config: &Config, mode: Mode, line: &[u8]) -> Result<Line, AllocError>
    ensures { IfOk result (λ read. IsRead config.now mode line.now read) }
{
    if line.is_empty() || line[0] == b'#' {
        return Ok(Line::Idle);
    }
    let Some((caller, text)) = caller_of(line) else {
        return Ok(Line::Wrong);
    };
    let Some(kind) = step_of(alloc, config, mode, caller.is_some(), text)? else {
        return Ok(Line::Wrong);
    };
    Ok(Line::Step {
        caller: caller.unwrap_or(0),
        kind,
    })
}

// Adds what the line with this number is. False where it is wrong.
fn add_line(
    alloc: Global,
    config: &Config,
    mode: Mode,
    number: u32,
    line: &[u8],
    owners: &mut Owners,
    steps: &mut StepList,
) -> Result<bool, AllocError>
    requires room { length steps.old < u32.MAX }
    requires owners { Owns config.now owners.old steps.old }
    ensures owners { OnOk result (Owns config.now owners.new steps.new) }
    ensures line { IfOk result (λ b. AddsLine config.now mode number line.now steps.old steps.new b) }
    ensures count { OnOk result (length steps.new ≤ length steps.old + 1) }
{
    match read_line(alloc, config, mode, line)? {
        Line::Idle => Ok(true),
        Line::Wrong => Ok(false),
        Line::Step { caller, kind } => {
            if !owners.allow(config, mode, caller, &kind) {
                return Ok(false);
            }
            owners.note(caller, &kind);
            steps.add(Step {
                line: number,
                caller,
                kind,
            })?;
            Ok(true)
        }
    }
}

/// The first line of an input, which is the configuration's.
pub fn first_line(input: &[u8]) -> &[u8]
    ensures { result.now ≡ first_line input.now }
{
    let (line, _) = cut(input, b'\n');
    without_return(line)
}

/// The steps of the lines after the first, which is the configuration's, or the first line that is no step.
pub fn read_script(
    alloc: Global,
    input: &[u8],
    config: &Config,
    mode: Mode,
) -> Result<StepList, ScriptFault>
    requires { length input.now < u32.MAX }
    ensures steps { IfOk result (λ steps. IsScript config.now mode 2 [] (later_lines input.now) steps) }
    ensures line { IfErr result (λ fault. NamesFirstWrong config.now mode (later_lines input.now) fault) }
{
    let mut steps = StepList::new(alloc);
    let mut owners = Owners::make(alloc, config.blocks() + 1)?;
    let (_, mut rest) = cut(input, b'\n');
    let mut number = 1;
    while let Some(text) = rest {
        let (line, more) = cut(text, b'\n');
        number += 1;
        rest = more;
        let line = without_return(line);
        if !add_line(alloc, config, mode, number, line, &mut owners, &mut steps)? {
            return Err(ScriptFault::Line { number });
        }
    }
    Ok(steps)
}
