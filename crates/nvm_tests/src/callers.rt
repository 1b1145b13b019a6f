// Callers of a shared stack in threads of their own, with the driver beside them.
ghost use Rattle.std.specs.Prelude.{◌≡◌, ◌≤◌, ◌^◌, ◌∷◌, [], ℕ, false, length, vec_len, IfOk, All};
ghost use Rattle.nvm_laws.specs.block_config.Lengths.{lengths_of};
ghost use Rattle.nvm_laws.specs.block_machine.Words.{Configuration};
ghost use Rattle.nvm_laws.specs.block_machine.Legal.{HasStore};
ghost use Rattle.nvm_laws.specs.ram_blocks.Plain.{plain_blocks_of};
ghost use Rattle.turn_gate.specs.Pass.{Has, knows};
ghost use Rattle.nvm_shared.specs.Driving.{IsDriverOf};
ghost use Rattle.nvm_shared.specs.Passes.{IsDriven};
ghost use Rattle.script_callers.specs.declared.deed.Deed.TheVariants.{Ask, Await};
ghost use Rattle.nvm_callers.specs.Callers.{MayRun};

use crate::flagged_device::FlaggedDevice;
use crate::flags::Flags;
use crate::untold::make_untold;
use nvm_callers::{Ending, Hold, NoHold, NoStores, Stores, run_callers};
use nvm_laws::memif::{MemDevice, PlainStore};
use nvm_laws::{
    Config, Desk, Entry, History, PlainSync, Reply, Request, SyncCalls, bytes_of, demo,
};
use nvm_shared::{Driver, NotedCopies, Shared, StackPass};
use script_callers::{Deed, DeedList, Program};
use std::alloc::{AllocError, Global};
use std::sync::Wait;
use std::thread::Threads;

fn write_of(alloc: Global, content: [u8; 4]) -> Result<Request, AllocError>
    ensures { (c : Configuration) → IfOk result (λ r. HasStore c r) }
{
    let content = bytes_of(alloc, &content)?;
    Ok(Request::Write {
        block: 2,
        content: Some(content),
        store: 0,
    })
}

fn status_of() -> Request
    ensures { (c : Configuration) → HasStore c result }
{
    Request::Status { block: 2 }
}

// A caller that makes these requests and waits for the block behind each.
fn program_of(
    alloc: Global,
    caller: u8,
    first: Request,
    second: Request,
) -> Result<Program, AllocError>
    ensures { IfOk result (λ p. p ≡ record { caller = caller; deeds = Ask 1 first ∷ Ask 2 second ∷ Await 3 2 ∷ [] }) }
{
    let mut deeds = DeedList::new(alloc);
    deeds.add(Deed::Ask {
        line: 1,
        request: first,
    })?;
    deeds.add(Deed::Ask {
        line: 2,
        request: second,
    })?;
    deeds.add(Deed::Await { line: 3, block: 2 })?;
    Ok(Program { caller, deeds })
}

fn is_ask(entry: Option<&Entry>) -> bool {
    matches!(entry, Some(Entry::Ask { .. }))
}

fn is_post(entry: Option<&Entry>) -> bool {
    matches!(entry, Some(Entry::Post { .. }))
}

// How many accepted requests and Posts a history has.
fn count(history: &History) -> (u32, u32) {
    let mut asks: u32 = 0;
    let mut posts: u32 = 0;
    for place in 0..history.len() {
        asks = asks.saturating_add(is_ask(history.entry(place)) as u32);
        posts = posts.saturating_add(is_post(history.entry(place)) as u32);
    }
    (asks, posts)
}

// Two callers, each with a write and a status of block 2.
fn two_programs(alloc: Global) -> Result<Vec<Program>, AllocError>
    ensures { IfOk result (λ v. (c : Configuration) → 2 ≤ length c.blocks → All (MayRun c) v.items) }
{
    let one = program_of(alloc, 1, write_of(alloc, *b"abcd")?, status_of())?;
    let two = program_of(alloc, 2, write_of(alloc, *b"wxyz")?, status_of())?;
    let mut programs = Vec::new(alloc);
    programs.push(one)?;
    programs.push(two)?;
    Ok(programs)
}

fn no_stores(alloc: Global, count: usize) -> Result<Vec<NoStores>, AllocError>
    ensures { IfOk result (λ v. vec_len v ≡ count) }
{
    vec![in alloc; NoStores; count]
}

// How many accepted requests and Posts a desk's history has, where its entries are kept.
fn kept_count(desk: &Desk) -> Option<(u32, u32)> {
    if !desk.keeps_entries() {
        return None;
    }
    Some(count(desk.history()))
}

// These callers over a shared stack: how they ended, and the entries of requests and the Posts at the end.
fn serve<
    R: Threads + Wait + Sync,
    D: MemDevice + Drop,
    C: NotedCopies + Drop,
    S: Stores + Send + Drop,
    H: Hold + Sync,
>(
    rt: &R,
    alloc: Global,
    shared: Shared,
    pass: StackPass,
    driver: Driver<D, C>,
    stores: Vec<S>,
    programs: &[Program],
    hold: &H,
) -> (Ending, Option<(u32, u32)>)
    requires driver { IsDriverOf D.told D.clock C.told shared pass driver }
    requires alone { (knows pass).parts ≡ 2 ^ 64 }
    requires own { (k : ℕ) → Has (knows pass).own k → IsDriven (knows pass).seen k }
    requires untold { shared.terms.tells ≡ false }
    requires lock { C.is_of shared.gate × S.is_of shared.gate }
    requires stores { vec_len stores ≡ length programs.now }
    requires may { All (MayRun shared.terms.config) programs.now }
{
    let (pass, _driver, ending, _stores) = run_callers(
        rt, alloc, &shared, pass, driver, stores, programs, hold,
    );
    let front = shared.close(pass);
    (ending, kept_count(&front.desk))
}

type Parts = (PlainSync, Vec<Program>, Vec<NoStores>);

// The application's copies, two callers, and a place for the stores of each.
fn parts_of(alloc: Global, config: &Config) -> Result<Parts, AllocError>
    ensures copies { IfOk result (λ r. r.0 ≡ plain_blocks_of config.now) }
    ensures programs { IfOk result (λ r. (c : Configuration) → 2 ≤ length c.blocks → All (MayRun c) r.1.items) }
    ensures stores { IfOk result (λ r. vec_len r.2 ≡ length r.1.items) }
{
    let copies = PlainSync::make(alloc, config)?;
    let programs = two_programs(alloc)?;
    let stores = no_stores(alloc, programs.len())?;
    Ok((copies, programs, stores))
}

// These callers over a device; the entries of requests and the Posts at the end.
fn run<R: Threads + Wait + Sync, D: MemDevice + Drop, H: Hold + Sync>(
    rt: &R,
    alloc: Global,
    config: Config,
    device: D,
    hold: &H,
) -> Result<(Ending, u32, u32), AllocError>
    requires numbers { (D.told device).fixed.numbers ≡ lengths_of config }
    requires blocks { 2 ≤ length config.blocks }
{
    let _blocks = config.blocks();
    let parts = parts_of(alloc, &config)?;
    let (copies, programs, stores) = parts;
    match make_untold(alloc, config, device, copies) {
        Ok((shared, pass, driver)) => {
            let (ending, counts) = serve(
                rt,
                alloc,
                shared,
                pass,
                driver,
                stores,
                programs.as_slice(),
                hold,
            );
            ended_with(ending, counts)
        }
        Err(_) => Err(AllocError),
    }
}

fn ended_with(
    ending: Ending,
    counts: Option<(u32, u32)>,
) -> Result<(Ending, u32, u32), AllocError> {
    match counts {
        Some((asks, posts)) => Ok((ending, asks, posts)),
        None => Err(AllocError),
    }
}

fn make_device(alloc: Global, config: &Config) -> Result<PlainStore, AllocError>
    ensures { IfOk result (λ d. d.fixed.numbers ≡ lengths_of config.now) }
{
    let numbers = config.all_lengths(alloc)?;
    PlainStore::make(alloc, &numbers)
}

fn run_plain<R: Threads + Wait + Sync>(
    rt: &R,
    alloc: Global,
) -> Result<(Ending, u32, u32), AllocError> {
    let config = demo(alloc)?;
    let device = make_device(alloc, &config)?;
    run(rt, alloc, config, device, &NoHold)
}

#[test]
fn two_callers_are_served_beside_each_other(rt: HostRuntime) {
    let ran = run_plain(&rt, rt.alloc());
    assert!(rt; matches!(ran, Ok((Ending::All, 4, 2 | 1))));
}

// Whether the first request of caller 1 was held until that of caller 2 was answered.
fn is_held<R: Threads + Wait + Sync>(rt: &R, alloc: Global) -> Result<bool, AllocError> {
    let config = demo(alloc)?;
    let device = make_device(alloc, &config)?;
    let hold = HoldCallOne {
        flags: Flags::new(),
    };
    let ran = run(rt, alloc, config, device, &hold)?;
    Ok(ran.1 == 4 && hold.flags.none_was_missed())
}

/// Caller 1 goes on with its first request when the first of caller 2 is answered, and that begins when caller 1 waits so.
#[derive(Drop)]
struct HoldCallOne {
    flags: Flags,
}

impl Hold for HoldCallOne {
    fn before(&self, caller: u8, line: u32) {
        match (caller, line) {
            (1, 1) => {
                self.flags.set_first();
                self.flags.look_for_second();
            }
            (2, 1) => self.flags.look_for_first(),
            _ => {}
        }
    }

    fn answered(&self, caller: u8, line: u32) {
        if caller == 2 && line == 1 {
            self.flags.set_second();
        }
    }

    fn may_share(&self) -> bool {
        false
    }
}

#[test]
fn hold_call_one(rt: HostRuntime) {
    assert!(rt; matches!(is_held(&rt, rt.alloc()), Ok(true)));
}

/// The status of caller 1 begins when the device makes its first turn, which ends when that is answered.
#[derive(Drop)]
struct AskBesideFlash<'a> {
    flags: &'a Flags,
}

impl<'a> Hold for AskBesideFlash<'a> {
    fn before(&self, caller: u8, line: u32) {
        if caller == 1 && line == 2 {
            self.flags.look_for_first();
        }
    }

    fn answered(&self, caller: u8, line: u32) {
        if caller == 1 && line == 2 {
            self.flags.set_second();
        }
    }

    fn may_share(&self) -> bool {
        false
    }
}

// Whether a request was answered while the device made its turn.
fn is_asked<R: Threads + Wait + Sync>(rt: &R, alloc: Global) -> Result<bool, AllocError> {
    let config = demo(alloc)?;
    let flags = Flags::new();
    let device = FlaggedDevice::over(make_device(alloc, &config)?, &flags);
    let ran = run(rt, alloc, config, device, &AskBesideFlash { flags: &flags })?;
    Ok(ran.1 == 4 && flags.none_was_missed())
}

#[test]
fn ask_beside_flash(rt: HostRuntime) {
    assert!(rt; matches!(is_asked(&rt, rt.alloc()), Ok(true)));
}
