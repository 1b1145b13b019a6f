// A shared stack over a device in memory: two callers, and the driver.
ghost use Rattle.std.specs.Prelude.{◌≡◌, ◌≤◌, ◌+◌, ◌^◌, false, IfOk};
ghost use Rattle.nvm_laws.specs.block_config.Lengths.{lengths_of};
ghost use Rattle.turn_gate.specs.Pass.{knows};
ghost use Rattle.nvm_shared.specs.Passes.{IsUserOf};
ghost use Rattle.nvm_shared.specs.Driving.{IsDriverOf};

use crate::untold::make_untold;
use nvm_laws::memif::{MemDevice, PlainStore};
use nvm_laws::{Config, PlainSync, Reply, Request, Turned, read};
use nvm_shared::{Driver, NotedCopies, Shared, StackPass};
use std::alloc::{AllocError, Global};
use std::sync::Wait;

const BLOCKS: &str =
    "{\"id\":1,\"page\":16,\"sector\":256,\"sectors\":8,\"standard\":8,\"immediate\":4,\"blocks\":[{\"length\":4,\"ram\":\"sync\"},{\"length\":4,\"ram\":\"sync\"}]}";

const PENDING: u8 = 2;

fn make_device(alloc: Global, config: &Config) -> Result<PlainStore, AllocError>
    ensures { IfOk result (λ d. d.fixed.numbers ≡ lengths_of config.now) }
{
    let numbers = config.all_lengths(alloc)?;
    PlainStore::make(alloc, &numbers)
}

// Turns until one is idle. Answers whether one was.
fn rest<W: Wait, D: MemDevice, C: NotedCopies + Drop>(
    rt: &W,
    shared: &Shared,
    pass: &mut StackPass,
    driver: &mut Driver<D, C>,
) -> bool
    requires driver { IsDriverOf D.told D.clock C.told shared.now pass.old driver.old }
    requires lock { C.is_of shared.now.gate }
    requires quiet { shared.now.terms.tells ≡ false }
    ensures driver { IsDriverOf D.told D.clock C.told shared.now pass.new driver.new }
    ensures parts { (knows pass.new).parts ≡ (knows pass.old).parts }
{
    for _ in 0..100 {
        if matches!(shared.turn(rt, pass, driver), Turned::Idle) {
            return true;
        }
    }
    false
}

// Whether a caller stores a content and asks for its write, and its block is PENDING then.
fn writes<W: Wait>(rt: &W, alloc: Global, shared: &Shared, pass: &mut StackPass, block: u16) -> bool
    requires own { IsUserOf shared.now pass.old }
    requires block { block ≤ 512 }
    ensures own { IsUserOf shared.now pass.new }
    ensures parts { (knows pass.new).parts ≡ (knows pass.old).parts }
{
    let request = Request::Write {
        block,
        content: None,
        store: 0,
    };
    let accepted = matches!(
        shared.ask(rt, alloc, pass, 1, request),
        Ok((Reply::Accepted, _))
    );
    accepted && shared.poll(pass, block).status == PENDING
}

// Whether a block's write ended well.
fn is_written(shared: &Shared, pass: &mut StackPass, block: u16) -> bool
    requires own { IsUserOf shared.now pass.old }
    requires block { block ≤ 512 }
    ensures own { IsUserOf shared.now pass.new }
    ensures parts { (knows pass.new).parts ≡ (knows pass.old).parts }
{
    shared.poll(pass, block).status == 0 && shared.poll_off(pass).status == 0
}

// Whether what a caller wrote comes back to it.
fn reads<W: Wait>(rt: &W, alloc: Global, shared: &Shared, pass: &mut StackPass, block: u16) -> bool
    requires own { IsUserOf shared.now pass.old }
    ensures own { IsUserOf shared.now pass.new }
    ensures parts { (knows pass.new).parts ≡ (knows pass.old).parts }
{
    let request = Request::Read { block, ram: true };
    matches!(
        shared.ask(rt, alloc, pass, 2, request),
        Ok((Reply::Accepted, _))
    )
}

// Two callers write a block each, and one reads the other's; the driver makes the turns.
fn are_served<W: Wait, D: MemDevice, C: NotedCopies + Drop>(
    rt: &W,
    alloc: Global,
    shared: &Shared,
    pass: &mut StackPass,
    one: &mut StackPass,
    two: &mut StackPass,
    driver: &mut Driver<D, C>,
) -> bool
    requires own { IsUserOf shared.now one.old × IsUserOf shared.now two.old }
    requires driver { IsDriverOf D.told D.clock C.told shared.now pass.old driver.old }
    requires lock { C.is_of shared.now.gate }
    requires quiet { shared.now.terms.tells ≡ false }
    ensures own { IsUserOf shared.now pass.new × IsUserOf shared.now one.new × IsUserOf shared.now two.new }
    ensures parts { ((knows pass.new).parts ≡ (knows pass.old).parts) × ((knows one.new).parts ≡ (knows one.old).parts) × ((knows two.new).parts ≡ (knows two.old).parts) }
{
    let asked = writes(rt, alloc, shared, one, 2);
    let asked_two = writes(rt, alloc, shared, two, 3);
    let rested = rest(rt, shared, pass, driver);
    let written = is_written(shared, one, 2);
    let written_two = is_written(shared, two, 3);
    let read = reads(rt, alloc, shared, two, 2);
    let rested_again = rest(rt, shared, pass, driver);
    asked && asked_two && rested && written && written_two && read && rested_again
}

// How many entries there are at the end, when all passes are joined.
fn entries_at_end(shared: Shared, mut pass: StackPass, one: StackPass, two: StackPass) -> u32
    requires own { IsUserOf shared pass × IsUserOf shared one × IsUserOf shared two }
    requires parts { (knows pass).parts + (knows one).parts + (knows two).parts ≡ 2 ^ 64 }
{
    shared.join(&mut pass, one);
    shared.join(&mut pass, two);
    shared.close(pass).desk.len()
}

// Whether a shared stack serves two callers, with one history at the end: a start-up, three requests, two writes of three entries
// and a read of two.
fn serves<W: Wait, D: MemDevice + Drop, C: NotedCopies + Drop>(
    rt: &W,
    alloc: Global,
    shared: Shared,
    mut pass: StackPass,
    mut driver: Driver<D, C>,
) -> bool
    requires driver { IsDriverOf D.told D.clock C.told shared pass driver }
    requires lock { C.is_of shared.gate }
    requires quiet { shared.terms.tells ≡ false }
    requires parts { (knows pass).parts ≡ 2 ^ 64 }
{
    let mut one = shared.split(&mut pass);
    let mut two = shared.split(&mut pass);
    let served = are_served(
        rt,
        alloc,
        &shared,
        &mut pass,
        &mut one,
        &mut two,
        &mut driver,
    );
    let (_device, _copies, hand) = driver.into_parts();
    entries_at_end(shared, pass, one, two) == 12 && served && hand.is_none()
}

// Whether what two callers wrote is written, and what was read comes back.
fn is_shared<W: Wait>(rt: &W, alloc: Global, config: Config) -> Result<bool, AllocError> {
    let _blocks = config.blocks();
    let device = make_device(alloc, &config)?;
    let copies = PlainSync::make(alloc, &config)?;
    match make_untold(alloc, config, device, copies) {
        Ok((shared, pass, driver)) => Ok(serves(rt, alloc, shared, pass, driver)),
        Err(_) => Err(AllocError),
    }
}

fn is_made_and_shared<W: Wait>(rt: &W, alloc: Global) -> bool {
    let Ok(config) = read(alloc, BLOCKS.as_bytes()) else {
        return false;
    };
    matches!(is_shared(rt, alloc, config), Ok(true))
}

#[test]
fn two_callers_and_a_driver_make_one_history(rt: HostRuntime) {
    assert!(rt; is_made_and_shared(&rt, rt.alloc()));
}
