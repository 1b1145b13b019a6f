// The programs of a script's callers.
ghost use Rattle.std.specs.Prelude.{◌≡◌, ◌<◌, ◌+◌, ◌++◌, ◌∷◌, ◌^◌, [], ℕ, List, length, get_or, IfOk, OnOk, if◌then◌else◌};
ghost use Rattle.block_machine.specs.Blocks.{desc_of, is_synchronized};
ghost use Rattle.block_machine.specs.Words.{Configuration};
ghost use Rattle.script_walks.specs.Words.{Step as Made, AskStep};
ghost use Rattle.script_walks.specs.Walk.{request_after};
ghost use Rattle.script_walks.specs.Callers.{program_of};
ghost use Rattle.script_callers.specs.Programs.{all_programs, programs_of};
ghost use Rattle.script_callers.specs.RunScripts.{CanBeRun, IsRunBy, AreRun};
ghost use Rattle.script_callers.specs.Counting.{ram_write, AreOf, AreCounted, AreMade, AddsDeed, OwnsStores};

use crate::store_counts::StoreCounts;
use crate::{Deed, DeedList, Program};
use block_config::{Config, RamKind};
use nv_base::Request;
use nvm_script::{Step, StepKind, StepList};
use std::alloc::{AllocError, Global};

/// How many callers there are.
const CALLERS: u8 = 16;

/// The programs of the callers that do something, by number: what each one's steps of the script have it do.
pub fn callers(alloc: Global, config: &Config, steps: &StepList) -> Result<Vec<Program>, AllocError>
    requires { AreRun config.now steps.now }
    ensures { IfOk result (λ programs. programs.items ≡ programs_of config.now steps.now) }
{
    let mut counts = StoreCounts::make(alloc, config.blocks())?;
    let mut programs = none_yet(alloc)?;
    for place in 0..steps.len() {
        match steps.get(place) {
            Some(step) => {
                let made = step.copy(alloc)?;
                add_step(config, made, &mut counts, programs.as_mut_slice())?;
            }
            None => {}
        }
    }
    programs.retain(|program| program.deeds.len() != 0);
    Ok(programs)
}

// The programs of all callers before the first step.
fn none_yet(alloc: Global) -> Result<Vec<Program>, AllocError>
    ensures { IfOk result (λ programs. (c : Configuration) → programs.items ≡ all_programs c []) }
{
    let mut programs = Vec::new(alloc);
    for caller in 0..CALLERS {
        programs.push(Program {
            caller,
            deeds: DeedList::new(alloc),
        })?;
    }
    Ok(programs)
}

// Adds what a step has its caller do to the caller's program.
fn add_step(
    config: &Config,
    step: Step,
    counts: &mut StoreCounts,
    programs: &mut [Program],
) -> Result<(), AllocError>
    requires run { IsRunBy config.now step }
    requires few { (before : List Made) × (length before < u32.MAX) × AreMade config.now before counts.old programs.old }
    ensures count { length programs.new ≡ length programs.old }
    ensures made { OnOk result ((before : List Made) → OwnsStores config.now before (program_of step.caller before) step.kind → AreMade config.now before counts.old programs.old → AreMade config.now (before ++ step ∷ []) counts.new programs.new) }
{
    let place = usize::from(step.caller);
    add_deed(config, step, counts, &mut programs[place].deeds)
}

// Adds what a step has its caller do.
fn add_deed(
    config: &Config,
    step: Step,
    counts: &mut StoreCounts,
    deeds: &mut DeedList,
) -> Result<(), AllocError>
    requires room { length deeds.old < u32.MAX }
    requires run { CanBeRun config.now step.kind }
    requires few { (block : ℕ) → get_or counts.old block 0 < 2 ^ 32 }
    requires size { length counts.old ≡ length config.now.blocks + 1 }
    ensures added { OnOk result ((before own : List Made) → AreOf step.caller own → OwnsStores config.now before own step.kind → AreCounted before counts.old → AddsDeed config.now before own step counts.new deeds.old deeds.new) }
    ensures size { length counts.new ≡ length counts.old }
{
    let Step { line, kind, .. } = step;
    match kind {
        StepKind::Ask(request) => deeds.add(Deed::Ask {
            line,
            request: numbered(config, request, counts),
        }),
        StepKind::Store { block, content } => {
            let number = counts.of(block) + 1;
            counts.note(block);
            deeds.add(Deed::Store {
                line,
                block,
                number,
                content,
            })
        }
        StepKind::Await { block } => deeds.add(Deed::Await { line, block }),
        _ => Ok(()),
    }
}

// The request as it is asked: a write of synchronized RAM has the number of its caller's last store.
fn numbered(config: &Config, request: Request, counts: &StoreCounts) -> Request
    requires { length counts.now ≡ length config.now.blocks + 1 }
    ensures { (before own : List Made) (caller : ℕ) → AreOf caller own → OwnsStores config.now before own (AskStep request) → AreCounted before counts.now → result ≡ request_after config.now own caller request }
{
    match ram_write(&request) {
        Some(block) => Request::Write {
            block,
            content: None,
            store: last_store(config, block, counts),
        },
        None => request,
    }
}

// The block whose RAM the request writes.
fn ram_write(request: &Request) -> Option<u16>
    ensures { result ≡ ram_write request.now }
{
    match request {
        Request::Write {
            block,
            content: None,
            ..
        } => Some(*block),
        _ => None,
    }
}

// The number of the last store of a block, and 0 where its RAM isn't synchronized.
fn last_store(config: &Config, block: u16, counts: &StoreCounts) -> u64
    ensures { result ≡ (if is_synchronized (desc_of config.now block).ram then get_or counts.now block 0 else 0) }
{
    match config.block(block) {
        Some(described) if matches!(described.ram, RamKind::Sync) => counts.of(block),
        _ => 0,
    }
}
