// The steps of a script.
ghost use Rattle.std.specs.Prelude.{◌≡◌, ◌≤◌, ℕ, List, true, length, OnOk, OnErr, IfErr};
ghost use Rattle.uds_gateway.specs.memif.Told.{Part, PartTold};
ghost use Rattle.uds_gateway.specs.block_machine.Words.{Configuration};
ghost use Rattle.uds_gateway.specs.block_machine.Legal.{HasStore};
ghost use Rattle.uds_gateway.specs.script_walks.Words.{Step as Made, AskStep, Restart};
ghost use Rattle.uds_gateway.specs.script_walks.Walk.{request_after};
ghost use Rattle.nvm_script.specs.Played.{IsPlayed, ArePlayed, CanBePlayed};
ghost use Rattle.script_player.specs.Calls.{StartsAgain};
ghost use Rattle.script_player.specs.Made.{Makes, IsAsked, IsLeft, IsFresh, HasWalked, WasBroken, cuts_of};
ghost use Rattle.script_player.specs.Paying.{AskMoves, LastsOn, StartsAnew};
ghost use Rattle.script_player.specs.Table.{HasLastStores, HoldsSynchronized};
ghost use Rattle.script_player.specs.PlainTold.{told_by};
ghost use Rattle.script_player.specs.PlainKept.{kept_by, starts_found};
ghost use Rattle.script_player.specs.PlainPaying.{seen_by};

use crate::turns::{drain, make_turns};
use crate::{LastStores, calls};
use nvm_script::{Step, StepKind, StepList};
use std::alloc::Global;
use uds_gateway::{AskFault, FoundAnswer, MemDevice, PlainSync, Request, Stack};

/// Why a step isn't made: a fault at a start-up, a history that is full, or want of memory.
#[derive(Clone, Copy)]
pub enum StepFault {
    Flash,
    HistoryFull,
    Memory,
}

/// Makes steps in order on a stack behind its first start-up, whose configuration has so many blocks.
pub fn make_steps<D: MemDevice>(
    alloc: Global,
    steps: StepList,
    blocks: u16,
    stack: &mut Stack<D, PlainSync>,
) -> Result<(), StepFault>
    requires blocks { blocks ≡ length stack.old.desk.config.blocks }
    requires fresh { IsFresh (told_by D.told stack.old) }
    requires played { ArePlayed stack.old.desk.config steps }
    requires planned { cuts_of steps ≤ (told_by D.told stack.old).causes.takes }
    ensures all { OnOk result (HasWalked (seen_by D.told D.clock stack.old) (seen_by D.told D.clock stack.new) steps (told_by D.told stack.old) (told_by D.told stack.new)) }
    ensures some { IfErr result (λ fault. WasBroken (seen_by D.told D.clock stack.old) (seen_by D.told D.clock stack.new) fault steps (told_by D.told stack.old) (told_by D.told stack.new)) }
    ensures configuration { stack.new.desk.config ≡ stack.old.desk.config }
    ensures most { stack.new.desk.cap ≡ stack.old.desk.cap }
    ensures counted { (told_by D.told stack.old).faults ≤ (told_by D.told stack.new).faults }
    ensures keeps { (before : Part → PartTold) → kept_by D.told D.clock stack.old before → kept_by D.told D.clock stack.new before }
    ensures starts { starts_found D.told stack.old → starts_found D.told stack.new }
{
    let Ok(mut stores) = LastStores::make(alloc, blocks) else {
        return Err(StepFault::Memory);
    };
    for step in steps.into_steps() {
        let Ok(whole) = step.whole(alloc) else {
            return Err(StepFault::Memory);
        };
        if let Err(fault) = make_step(alloc, whole, &mut stores, stack) {
            return Err(fault);
        }
    }
    Ok(())
}

/// Makes one step.
pub fn make_step<D: MemDevice>(
    alloc: Global,
    step: Step,
    stores: &mut LastStores,
    stack: &mut Stack<D, PlainSync>,
) -> Result<(), StepFault>
    requires ready { stack.old.ready ≡ true }
    requires played { IsPlayed stack.old.desk.config step }
    requires synchronized { HoldsSynchronized stack.old.desk.config stores.old }
    ensures synchronized { HoldsSynchronized stack.old.desk.config stores.new }
    ensures ready { OnOk result (stack.new.ready ≡ true) }
    ensures made { OnOk result (Makes (seen_by D.told D.clock stack.old) (seen_by D.told D.clock stack.new) step stores.old stores.new (told_by D.told stack.old) (told_by D.told stack.new)) }
    ensures left { IfErr result (λ fault. IsLeft fault step (told_by D.told stack.old) (told_by D.told stack.new)) }
    ensures lasts { OnErr result (LastsOn (seen_by D.told D.clock stack.old) (seen_by D.told D.clock stack.new)) }
    ensures keeps { (before : Part → PartTold) → kept_by D.told D.clock stack.old before → kept_by D.told D.clock stack.new before }
    ensures starts { starts_found D.told stack.old → starts_found D.told stack.new }
{
    let Step { caller, kind, .. } = step;
    match kind {
        StepKind::Ask(request) => ask(alloc, caller, request, stores, stack),
        StepKind::Store { block, content } => {
            let number = calls::store(block, content.as_slice(), stack);
            stores.note(caller, block, number);
            Ok(())
        }
        StepKind::Turn { count } => {
            make_turns(stack, count);
            Ok(())
        }
        StepKind::Drain => {
            drain(stack);
            Ok(())
        }
        StepKind::Restart => restart(alloc, stack),
        StepKind::Cut { nth, keep } => {
            calls::arm(nth, keep, stack);
            Ok(())
        }
        StepKind::CutSecond { .. } => Ok(()),
        StepKind::Refuse { block, count } => {
            calls::refuse(block, count, stack);
            Ok(())
        }
        StepKind::Await { .. } => Ok(()),
    }
}

// The request as it is asked: a write of RAM has the number of its caller's last store.
fn request_with(request: Request, caller: u8, stores: &LastStores) -> Request
    requires { caller ≤ 15 }
    ensures after { (c : Configuration) (before : List Made) → HasLastStores c before stores.now → CanBePlayed c (AskStep request) → result ≡ request_after c before caller request }
    ensures store { (c : Configuration) → HoldsSynchronized c stores.now → CanBePlayed c (AskStep request) → HasStore c result }
{
    match request {
        Request::Write {
            block,
            content: None,
            ..
        } => Request::Write {
            block,
            content: None,
            store: stores.get(caller, block),
        },
        request => request,
    }
}

fn ask<D: MemDevice>(
    alloc: Global,
    caller: u8,
    request: Request,
    stores: &LastStores,
    stack: &mut Stack<D, PlainSync>,
) -> Result<(), StepFault>
    requires ready { stack.old.ready ≡ true }
    requires caller { caller ≤ 15 }
    requires played { CanBePlayed stack.old.desk.config (AskStep request) }
    requires synchronized { HoldsSynchronized stack.old.desk.config stores.now }
    ensures ready { OnOk result (stack.new.ready ≡ true) }
    ensures asked { OnOk result (IsAsked caller request stores.now (told_by D.told stack.old) (told_by D.told stack.new) × AskMoves (seen_by D.told D.clock stack.old) (seen_by D.told D.clock stack.new) (told_by D.told stack.old) (told_by D.told stack.new)) }
    ensures lasts { OnErr result (LastsOn (seen_by D.told D.clock stack.old) (seen_by D.told D.clock stack.new)) }
    ensures left { IfErr result (λ fault. (line : ℕ) → IsLeft fault (record { line = line; caller = caller; kind = AskStep request }) (told_by D.told stack.old) (told_by D.told stack.new)) }
    ensures keeps { (before : Part → PartTold) → kept_by D.told D.clock stack.old before → kept_by D.told D.clock stack.new before }
    ensures starts { starts_found D.told stack.old → starts_found D.told stack.new }
{
    match calls::ask(alloc, caller, request_with(request, caller, stores), stack) {
        Ok(_reply) => Ok(()),
        Err(AskFault::NoRoom) => Err(StepFault::HistoryFull),
        Err(AskFault::Memory) => Err(StepFault::Memory),
    }
}

fn restart<D: MemDevice>(alloc: Global, stack: &mut Stack<D, PlainSync>) -> Result<(), StepFault>
    requires { stack.old.ready ≡ true }
    ensures ready { OnOk result (stack.new.ready ≡ true) }
    ensures made { OnOk result (StartsAgain (told_by D.told stack.old) (told_by D.told stack.new) × StartsAnew (seen_by D.told D.clock stack.old) (seen_by D.told D.clock stack.new) (told_by D.told stack.old) (told_by D.told stack.new)) }
    ensures lasts { OnErr result (LastsOn (seen_by D.told D.clock stack.old) (seen_by D.told D.clock stack.new)) }
    ensures left { IfErr result (λ fault. (line caller : ℕ) → IsLeft fault (record { line = line; caller = caller; kind = Restart }) (told_by D.told stack.old) (told_by D.told stack.new)) }
    ensures keeps { (before : Part → PartTold) → kept_by D.told D.clock stack.old before → kept_by D.told D.clock stack.new before }
    ensures starts { starts_found D.told stack.old → starts_found D.told stack.new }
{
    match calls::restart(alloc, stack) {
        FoundAnswer::Ready => Ok(()),
        FoundAnswer::Failed => Err(StepFault::Flash),
        FoundAnswer::NoRoom => Err(StepFault::HistoryFull),
        FoundAnswer::Memory => Err(StepFault::Memory),
    }
}
