// A run over a device in memory.
ghost use Rattle.std.specs.Prelude.{◌≡◌, IfOk};
ghost use Rattle.nvm_script.specs.Played.{ArePlayed};
ghost use Rattle.script_player.specs.Made.{IsFresh};
ghost use Rattle.script_player.specs.PlainTold.{told_by};
ghost use Rattle.script_player.specs.ram_blocks.Plain.{plain_blocks_of};

use anyhow::bail;
use nv_base::History;
use nvm_script::{Mode, StepList, entry_text, first_line, read_script};
use nvm_top::nvm_flash::{CAP, Config, FoundAnswer, PlainStore, PlainSync, Stack, read};
use script_player::{cuts_of, make_steps};
use std::alloc::{AllocError, Global};

/// Plays the script of an input over a device in memory, which has no fault and no power cut, and gives the text of the
/// history.
pub fn play_in_memory(alloc: Global, input: &[u8]) -> anyhow::Result<Vec<u8>> {
    let config = read(alloc, first_line(input))?;
    let steps = read_steps(alloc, input, &config)?;
    if cuts_of(&steps) > 0 {
        bail!("a device in memory has no power cut");
    }
    let blocks = config.blocks();
    let mut stack = start(alloc, config)?;
    if make_steps(alloc, steps, blocks, &mut stack).is_err() {
        bail!("a step isn't made in memory");
    }
    kept_text(alloc, &stack)
}

// The steps of an input.
#[tactic(auto, using(nvm_script::proofs::PlayedScripts::scripts_are_played))]
fn read_steps(alloc: Global, input: &[u8], config: &Config) -> anyhow::Result<StepList>
    ensures { IfOk result (λ steps. ArePlayed config.now steps) }
{
    if input.len() >= u32::MAX as usize {
        bail!("the script is too long");
    }
    match read_script(alloc, input, config, Mode::Play) {
        Ok(steps) => Ok(steps),
        Err(_) => bail!("no script"),
    }
}

// The stack of a configuration over a device that holds nothing yet, behind its first start-up.
fn start(alloc: Global, config: Config) -> anyhow::Result<Stack<PlainStore, PlainSync>>
    ensures configuration { IfOk result (λ s. s.desk.config ≡ config) }
    ensures copies { IfOk result (λ s. s.copies ≡ plain_blocks_of config) }
    ensures fresh { IfOk result (λ s. IsFresh (told_by (λ d. d) s)) }
{
    config.geometry();
    let numbers = config.all_lengths(alloc)?;
    let device = PlainStore::make(alloc, &numbers)?;
    let copies = PlainSync::make(alloc, &config)?;
    let Ok(mut stack) = Stack::make(alloc, config, device, copies, CAP) else {
        bail!("no memory for a stack");
    };
    match stack.start() {
        FoundAnswer::Ready => Ok(stack),
        _ => bail!("no start-up in memory"),
    }
}

// The text of a stack's history, which a stack of this cap keeps.
fn kept_text(alloc: Global, stack: &Stack<PlainStore, PlainSync>) -> anyhow::Result<Vec<u8>> {
    if !stack.keeps_entries() {
        bail!("the entries aren't kept");
    }
    Ok(text_of(alloc, stack.history())?)
}

// The lines of a history.
fn text_of(alloc: Global, history: &History) -> Result<Vec<u8>, AllocError> {
    let mut text = Vec::new(alloc);
    for place in 0..history.len() {
        if let Some(entry) = history.entry(place) {
            text.extend_from_slice(entry_text(alloc, entry)?.as_slice())?;
        }
    }
    Ok(text)
}
