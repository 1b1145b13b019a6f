// A device over banks whose flash fails in its first write, and faults over planned cuts.
ghost use Rattle.nvm_flash.specs.Made.{IsOrigin};

use nvm_flash::{
    AttachFault, Cutter, FaultScript, Flash, FlashAnswer, Origin, give_back, make_device, mem_flash,
};
use nvm_laws::memif::{JobResult, MemDevice, PlainMark, make_turns, start_up};
use nvm_laws::{Config, DeviceNumber, Geometry, demo};
use std::alloc::Global;
use std::marker::Brand;

// Block 2 of the demo.
const NUMBER: DeviceNumber = DeviceNumber(128);

// The operations of a first write on a blank flash: four erases, a head and a gate, and the four pages of its record.
const OPERATIONS: u64 = 10;

// Writes block 2 on a device over a flash, and gives the result of that job and the flash.
fn written<F: Flash, O: Origin>(alloc: Global, config: &Config, flash: F) -> (Option<JobResult>, F)
    requires { IsOrigin config.now (F.told flash) 0 O.making O.entry }
{
    match make_device::<F, O>(alloc, config, flash, 0) {
        Ok(mut device) => {
            let taken = start_up(&mut device).is_ok()
                && device
                    .start_write(NUMBER, &[0x11, 0x22, 0x33, 0x44], false)
                    .is_ok();
            make_turns(&mut device);
            let result = taken.then_some(device.result());
            (result, give_back(device))
        }
        Err((_, flash)) => (None, flash),
    }
}

// What a start-up finds of block 2 on a flash.
fn found<F: Flash, O: Origin>(alloc: Global, config: &Config, flash: F) -> (Option<PlainMark>, F)
    requires { IsOrigin config.now (F.told flash) 0 O.making O.entry }
{
    match make_device::<F, O>(alloc, config, flash, 0) {
        Ok(mut device) => {
            let is_up = start_up(&mut device).is_ok();
            let mark = device.mark_kind(NUMBER);
            (mark.filter(|_| is_up), give_back(device))
        }
        Err((_, flash)) => (None, flash),
    }
}

fn write_on<F: Flash>(alloc: Global, config: &Config, flash: F) -> (Option<JobResult>, F) {
    written::<F, Brand>(alloc, config, flash)
}

fn find_on<F: Flash>(alloc: Global, config: &Config, flash: F) -> (Option<PlainMark>, F) {
    found::<F, Brand>(alloc, config, flash)
}

// What comes of that write where one operation of the flash fails with so many bytes of it done.
fn tried(alloc: Global, nth: u64, keep: u32) -> Option<(JobResult, PlainMark)> {
    let config = demo(alloc).ok()?;
    let flash = mem_flash(alloc, &[], 0).ok()?;
    let flash = FaultScript::make(alloc, flash, &[(nth, keep)], &[]).ok()?;
    let (result, flash) = write_on(alloc, &config, flash);
    let flash = flash.into_inner();
    let (mark, _) = find_on(alloc, &config, flash);
    Some((result?, mark?))
}

fn is_lost(tried: Option<(JobResult, PlainMark)>) -> bool {
    matches!(tried, Some((JobResult::JobFailed, PlainMark::Erased)))
}

// Whether the job fails at each of its operations, and nothing of it is found.
fn each_is_lost(alloc: Global, keep: u32) -> bool {
    for nth in 1..OPERATIONS {
        if !is_lost(tried(alloc, nth, keep)) {
            return false;
        }
    }
    true
}

#[test]
fn a_device_whose_flash_fails_in_its_first_write(rt: HostRuntime) {
    let alloc = rt.alloc();
    assert!(rt; each_is_lost(alloc, 0) && each_is_lost(alloc, 8) && each_is_lost(alloc, 16));
}

// Whether the job that fails at its commit gate is lost where a part of the gate is done.
fn is_lost_without_its_gate(alloc: Global) -> bool {
    is_lost(tried(alloc, OPERATIONS, 0)) && is_lost(tried(alloc, OPERATIONS, 15))
}

// Whether its mark is found where all of the gate is done.
fn is_found_with_its_gate(alloc: Global) -> bool {
    let whole = tried(alloc, OPERATIONS, 16);
    matches!(whole, Some((JobResult::JobFailed, PlainMark::Content)))
}

// Whether the write is done where the operation behind its last one fails.
fn is_done_before(alloc: Global) -> bool {
    let unharmed = tried(alloc, OPERATIONS + 1, 0);
    matches!(unharmed, Some((JobResult::JobOk, PlainMark::Content)))
}

// The commit gate alone makes the record count.
#[test]
fn a_device_whose_commit_gate_fails(rt: HostRuntime) {
    let alloc = rt.alloc();
    assert!(rt; is_lost_without_its_gate(alloc) && is_found_with_its_gate(alloc));
    assert!(rt; is_done_before(alloc));
}

const SMALLEST: Geometry = Geometry {
    page: 16,
    sector: 64,
    sectors: 2,
};

// The answers of two programs, where a cut is planned for the first.
fn program_two<F: Flash>(
    alloc: Global,
    flash: &mut F,
) -> Result<(FlashAnswer, FlashAnswer), AttachFault> {
    flash.attach(alloc, SMALLEST)?;
    flash.arm(1, 0);
    let first = flash.program(16, &[0x0f; 16]);
    let second = flash.program(32, &[0x0f; 16]);
    Ok((first, second))
}

// Those over a flash whose first operation fails, none of it done.
fn cut_behind_a_fault(alloc: Global) -> Option<(FlashAnswer, FlashAnswer)> {
    let flash = mem_flash(alloc, &[], 0).ok()?;
    let flash = Cutter::make(alloc, flash, 1).ok()?;
    let mut flash = FaultScript::make(alloc, flash, &[(1, 0)], &[]).ok()?;
    program_two(alloc, &mut flash).ok()
}

// Whether a fault doesn't reach the flash that cuts, so that the cut comes one operation later.
fn is_cut_behind_a_fault(alloc: Global) -> bool {
    let answers = cut_behind_a_fault(alloc);
    matches!(answers, Some((FlashAnswer::Failed, FlashAnswer::Off)))
}

#[test]
fn a_fault_over_a_planned_cut(rt: HostRuntime) {
    assert!(rt; is_cut_behind_a_fault(rt.alloc()));
}
