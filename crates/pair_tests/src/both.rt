// A stack over a flash and an EEPROM, and over two devices in memory: each block is kept on its own device, over a start-up and over a
// power cut of either.
ghost use Rattle.std.specs.Prelude.{◌≡◌, ◌∷◌, [], true, IfOk, IfSome};
ghost use Rattle.nvm_laws.specs.block_config.Lengths.{lengths_of};
ghost use Rattle.nvm_laws.specs.block_machine.Words.{Configuration};
ghost use Rattle.nvm_laws.specs.block_machine.Legal.{HasStore};
ghost use Rattle.nvm_laws.specs.memif.Plain.{plain_store};
ghost use Rattle.memif_fee_ea.specs.ea_slots.Whole.{told_in};
ghost use Rattle.memif_fee_ea.specs.ea_slots.ea_told.Making.{HasSlots};
ghost use Rattle.memif_fee_ea.specs.fee_core.fee_told.Device.{told_of};
ghost use Rattle.memif_fee_ea.specs.memif_pair.Both.{told_as};
ghost use Rattle.nvm_laws.specs.block_config.DemoConfig.{demo_config};

use memif_fee_ea::memif_pair::Both;
use memif_fee_ea::{FlashAndEeprom, Shapes, ea_slots, fee_core, make};
use nvm_flash::{Cutter, Flash, MemFlash, Stack, mem_flash};
use nvm_laws::memif::{MemDevice, MemIf, PlainStore};
use nvm_laws::{
    Config, DeviceNumber, FoundAnswer, Geometry, Lengths, PlainSync, Reply, ReqResult, Request,
    Turned, bytes_of, demo, lengths_of,
};
use std::alloc::{AllocError, Global};
use std::marker::Brand;

// Block 2 of the demo, which is kept on the EEPROM; blocks 1 and 3 are kept on the flash.
const SMALL: u16 = 2;

const LARGE: u16 = 3;

// The numbers of both copies of block 1, and those of the others.
const MANAGER: DeviceNumber = DeviceNumber(64);

const MANAGER_COPY: DeviceNumber = DeviceNumber(65);

const SMALL_NUMBER: DeviceNumber = DeviceNumber(128);

const LARGE_NUMBER: DeviceNumber = DeviceNumber(192);

// The parts of the device, in the order of a plan of a power cut.
const FLASH: u8 = 0;

const EEPROM: u8 = 1;

fn turn<D: MemDevice>(stack: &mut Stack<D, PlainSync>) -> Turned
    requires { stack.old.ready ≡ true }
    ensures { stack.new.ready ≡ true }
{
    stack.turn()
}

// Turns until one is idle. Answers whether one was, and the power didn't go off.
fn rest<D: MemDevice>(stack: &mut Stack<D, PlainSync>) -> bool
    requires { stack.old.ready ≡ true }
    ensures { stack.new.ready ≡ true }
{
    for _ in 0..200 {
        match turn(stack) {
            Turned::Idle => return true,
            Turned::Off => return false,
            Turned::Worked | Turned::Picked | Turned::Posted => {}
        }
    }
    false
}

// Whether a request is accepted.
fn asks<D: MemDevice>(alloc: Global, stack: &mut Stack<D, PlainSync>, request: Request) -> bool
    requires ready { stack.old.ready ≡ true }
    requires store { (c : Configuration) → HasStore c request }
    ensures { stack.new.ready ≡ true }
{
    matches!(stack.ask(alloc, 1, request), Ok(Reply::Accepted))
}

// Whether a write of a block is accepted.
fn asks_write<D: MemDevice>(
    alloc: Global,
    stack: &mut Stack<D, PlainSync>,
    block: u16,
    content: &[u8],
) -> bool
    requires { stack.old.ready ≡ true }
    ensures { stack.new.ready ≡ true }
{
    match bytes_of(alloc, content) {
        Ok(content) => {
            let content = Some(content);
            asks(
                alloc,
                stack,
                Request::Write {
                    block,
                    content,
                    store: 0,
                },
            )
        }
        Err(_) => false,
    }
}

fn writes<D: MemDevice>(
    alloc: Global,
    stack: &mut Stack<D, PlainSync>,
    block: u16,
    content: &[u8],
) -> bool
    requires { stack.old.ready ≡ true }
    ensures { stack.new.ready ≡ true }
{
    let done = asks_write(alloc, stack, block, content) && rest(stack);
    done && matches!(stack.status(block), ReqResult::Fine)
}

// Whether a read of a block gives this.
fn reads<D: MemDevice>(
    alloc: Global,
    stack: &mut Stack<D, PlainSync>,
    block: u16,
    content: &[u8],
) -> bool
    requires { stack.old.ready ≡ true }
    ensures { stack.new.ready ≡ true }
{
    let done = asks(alloc, stack, Request::Read { block, ram: false }) && rest(stack);
    done && matches!(stack.last_given(), Some(given) if given == content)
}

// Whether both blocks are read.
fn reads_both<D: MemDevice>(
    alloc: Global,
    stack: &mut Stack<D, PlainSync>,
    small: &[u8],
    large: &[u8],
) -> bool
    requires { stack.old.ready ≡ true }
    ensures { stack.new.ready ≡ true }
{
    reads(alloc, stack, SMALL, small) && reads(alloc, stack, LARGE, large)
}

// Whether a write of the RAM of the block on the EEPROM by WriteAll is done.
fn writes_all<D: MemDevice>(alloc: Global, stack: &mut Stack<D, PlainSync>, content: &[u8]) -> bool
    requires { stack.old.ready ≡ true }
    ensures { stack.new.ready ≡ true }
{
    let Ok(content) = bytes_of(alloc, content) else {
        return false;
    };
    let block = SMALL;
    let changed = asks(alloc, stack, Request::PutRam { block, content })
        && asks(alloc, stack, Request::SetRam { block, on: true });
    let done = changed && asks(alloc, stack, Request::WriteAll) && rest(stack);
    done && matches!(stack.status(0), ReqResult::Fine)
}

fn restarts<D: MemDevice>(alloc: Global, stack: &mut Stack<D, PlainSync>) -> bool
    ensures { result ≡ true → stack.new.ready ≡ true }
{
    matches!(stack.restart(alloc), FoundAnswer::Ready)
}

// Whether the power goes off in a write of a block at the second operation of a part.
fn is_cut<D: MemDevice>(
    alloc: Global,
    stack: &mut Stack<D, PlainSync>,
    part: u8,
    block: u16,
    content: &[u8],
) -> bool
    requires { stack.old.ready ≡ true }
    ensures { stack.new.ready ≡ true }
{
    stack.arm(part, 2, 8);
    let asked = asks_write(alloc, stack, block, content);
    let rested = rest(stack);
    asked && !rested && matches!(stack.status(block), ReqResult::Pending)
}

// Whether each block is kept over a start-up.
fn keeps<D: MemDevice>(alloc: Global, stack: &mut Stack<D, PlainSync>) -> bool
    requires { stack.old.ready ≡ true }
    ensures { result ≡ true → stack.new.ready ≡ true }
{
    writes(alloc, stack, SMALL, &[1; 4])
        && writes(alloc, stack, LARGE, &[2; 20])
        && reads_both(alloc, stack, &[1; 4], &[2; 20])
        && writes_all(alloc, stack, &[3; 4])
        && restarts(alloc, stack)
        && reads_both(alloc, stack, &[3; 4], &[2; 20])
}

// Whether what both hold is kept over a power cut of either.
fn keeps_over_cuts<D: MemDevice>(alloc: Global, stack: &mut Stack<D, PlainSync>) -> bool
    requires { stack.old.ready ≡ true }
    ensures { result ≡ true → stack.new.ready ≡ true }
{
    is_cut(alloc, stack, EEPROM, SMALL, &[4; 4])
        && restarts(alloc, stack)
        && reads_both(alloc, stack, &[3; 4], &[2; 20])
        && is_cut(alloc, stack, FLASH, LARGE, &[5; 20])
        && restarts(alloc, stack)
        && reads_both(alloc, stack, &[3; 4], &[2; 20])
        && writes(alloc, stack, SMALL, &[6; 4])
        && writes(alloc, stack, LARGE, &[7; 20])
        && reads_both(alloc, stack, &[6; 4], &[7; 20])
}

// Whether a stack starts up and keeps its blocks, over power cuts too where its device can be cut.
fn holds<D: MemDevice>(alloc: Global, stack: &mut Stack<D, PlainSync>, can_be_cut: bool) -> bool {
    let started = matches!(stack.start(), FoundAnswer::Ready);
    started && keeps(alloc, stack) && (!can_be_cut || keeps_over_cuts(alloc, stack))
}

// The same of the stack of a configuration over a device.
fn holds_over<D: MemDevice + Drop>(
    alloc: Global,
    config: Config,
    device: D,
    can_be_cut: bool,
) -> bool
    requires { (D.told device).fixed.numbers ≡ lengths_of config }
{
    let _blocks = config.blocks();
    let Ok(copies) = PlainSync::make(alloc, &config) else {
        return false;
    };
    match Stack::make(alloc, config, device, copies, 1000) {
        Ok(mut stack) => holds(alloc, &mut stack, can_be_cut),
        Err(_) => false,
    }
}

// The numbers of blocks 1 and 3.
fn flash_numbers(alloc: Global) -> Result<Lengths, AllocError>
    ensures { IfOk result (λ l. l ≡ (MANAGER, 2) ∷ (MANAGER_COPY, 2) ∷ (LARGE_NUMBER, 20) ∷ []) }
{
    lengths_of(
        alloc,
        &[(MANAGER, 2), (MANAGER_COPY, 2), (LARGE_NUMBER, 20)],
    )
}

// That of block 2.
fn eeprom_numbers(alloc: Global) -> Result<Lengths, AllocError>
    ensures { IfOk result (λ l. l ≡ (SMALL_NUMBER, 4) ∷ []) }
{
    lengths_of(alloc, &[(SMALL_NUMBER, 4)])
}

// One device of two in memory, each as it was made.
fn both_in_memory(first: PlainStore, second: PlainStore) -> Both<PlainStore, PlainStore>
    requires first { first ≡ plain_store ((MANAGER, 2) ∷ (MANAGER_COPY, 2) ∷ (LARGE_NUMBER, 20) ∷ []) }
    requires second { second ≡ plain_store ((SMALL_NUMBER, 4) ∷ []) }
    ensures { (told_as (λ d. d) (λ d. d) result).fixed.numbers ≡ lengths_of demo_config }
{
    Both::make(MemIf { first, second })
}

// That device, made.
fn pair_in_memory(alloc: Global) -> Result<Both<PlainStore, PlainStore>, AllocError>
    ensures { IfOk result (λ b. (told_as (λ d. d) (λ d. d) b).fixed.numbers ≡ lengths_of demo_config) }
{
    let numbers = flash_numbers(alloc)?;
    let first = PlainStore::make(alloc, &numbers)?;
    let numbers = eeprom_numbers(alloc)?;
    let second = PlainStore::make(alloc, &numbers)?;
    Ok(both_in_memory(first, second))
}

fn holds_in_memory(alloc: Global) -> Result<bool, AllocError> {
    let device = pair_in_memory(alloc)?;
    let config = demo(alloc)?;
    Ok(holds_over(alloc, config, device, false))
}

#[test]
fn a_stack_over_two_devices_in_memory(rt: HostRuntime) {
    assert!(rt; matches!(holds_in_memory(rt.alloc()), Ok(true)));
}

// The demo's flash, and an EEPROM with two slots of two sectors.
const SHAPES: Shapes = Shapes {
    flash: Geometry {
        page: 16,
        sector: 256,
        sectors: 8,
    },
    banks: 2,
    reserve: 5,
    eeprom: Geometry {
        page: 16,
        sector: 64,
        sectors: 4,
    },
};

// The device over a flash and an EEPROM, made.
fn pair_on<F: Flash + Drop, O: fee_core::Origin, P: ea_slots::Origin>(
    alloc: Global,
    flash: F,
    eeprom: F,
) -> Option<FlashAndEeprom<F, O, F, P>>
    requires first { O.making ≡ record { geometry = SHAPES.flash; banks = SHAPES.banks; numbers = (MANAGER, 2) ∷ (MANAGER_COPY, 2) ∷ (LARGE_NUMBER, 20) ∷ []; reserve = SHAPES.reserve } }
    requires entry { O.entry ≡ F.told flash }
    requires second { P.making ≡ record { geometry = SHAPES.eeprom; numbers = (SMALL_NUMBER, 4) ∷ [] } }
    requires eeprom { P.entry ≡ F.told eeprom }
    requires slots { HasSlots P.making }
    ensures { IfSome result (λ b. (told_as told_of told_in b).fixed.numbers ≡ lengths_of demo_config) }
{
    let Ok(numbers) = flash_numbers(alloc) else {
        return None;
    };
    let Ok(second) = eeprom_numbers(alloc) else {
        return None;
    };
    match make::<F, O, F, P>(alloc, flash, eeprom, SHAPES, &numbers, &second) {
        Ok(device) => Some(device),
        Err(_) => None,
    }
}

fn made_holds<F: Flash + Drop, O: fee_core::Origin, P: ea_slots::Origin>(
    alloc: Global,
    flash: F,
    eeprom: F,
) -> Option<bool>
    requires first { O.making ≡ record { geometry = SHAPES.flash; banks = SHAPES.banks; numbers = (MANAGER, 2) ∷ (MANAGER_COPY, 2) ∷ (LARGE_NUMBER, 20) ∷ []; reserve = SHAPES.reserve } }
    requires entry { O.entry ≡ F.told flash }
    requires second { P.making ≡ record { geometry = SHAPES.eeprom; numbers = (SMALL_NUMBER, 4) ∷ [] } }
    requires eeprom { P.entry ≡ F.told eeprom }
    requires slots { HasSlots P.making }
{
    let device = pair_on::<F, O, P>(alloc, flash, eeprom)?;
    let Ok(config) = demo(alloc) else {
        return None;
    };
    Some(holds_over(alloc, config, device, true))
}

fn holds_on<F: Flash + Drop>(alloc: Global, flash: F, eeprom: F) -> Option<bool> {
    made_holds::<F, Brand, Brand>(alloc, flash, eeprom)
}

// A flash whose power can be cut once.
fn cutter(alloc: Global) -> Option<Cutter<MemFlash>> {
    let flash = mem_flash(alloc, &[], 0).ok()?;
    Cutter::make(alloc, flash, 1).ok()
}

fn holds_on_flashes(alloc: Global) -> Option<bool> {
    holds_on(alloc, cutter(alloc)?, cutter(alloc)?)
}

#[test]
fn a_stack_over_a_flash_and_an_eeprom(rt: HostRuntime) {
    assert!(rt; matches!(holds_on_flashes(rt.alloc()), Some(true)));
}
