// A read of either flash that fails, at a start-up or in a job: nothing that was written is lost by it.
use crate::pair_harms::{Done, SCRIPT, tried};
use crate::pairs::{Contents, Write, behind, holds_all, try_pair};
use crate::steps::turns;
use crate::trial::Trial;
use fls_devices::FaultScript;
use memif_fee_ea::{DeviceNumber, JobResult, MemDevice, MemFlash, mem_flash};
use std::alloc::{AllocError, Global};

// How often each flash is read by a start-up and a read of each of its numbers.
const FLASH_READS: u64 = 12;

const EEPROM_READS: u64 = 10;

// Whether a start-up and a read of each number give this, but for one that fails, which is counted; and whether the next start-up
// finds it.
#[derive(Clone, Copy)]
struct FailedRead {
    contents: Contents,
}

// How many reads of these numbers fail. None where one gives something else.
fn failures<D: MemDevice>(device: &mut D, contents: Contents) -> Option<u64> {
    let mut failed: u64 = 0;
    for (number, content) in contents {
        device.start_read(number, 4).ok()?;
        turns(device);
        match device.result() {
            JobResult::JobFailed => failed = failed.saturating_add(1),
            _ if device.take_data() == content?.as_slice() => {}
            _ => return None,
        }
    }
    Some(failed)
}

impl Trial for FailedRead {
    fn try_with<D: MemDevice + Drop>(&self, _alloc: Global, device: D) -> Option<D> {
        let mut device = device;
        let fails_first = device.start().is_err();
        if fails_first {
            device.start().ok()?;
        }
        let failed = failures(&mut device, self.contents)?.saturating_add(u64::from(fails_first));
        let counted = device.faults();
        device.start().ok()?;
        (failed == 1 && counted == 1 && holds_all(&mut device, self.contents)).then_some(device)
    }
}

// Flashes of these bytes, of which these reads fail.
fn flash_of(alloc: Global, bytes: &[u8], reads: &[u64]) -> Option<FaultScript<MemFlash>> {
    FaultScript::make(alloc, mem_flash(alloc, bytes, 0).ok()?, &[], reads).ok()
}

// A read of either that fails.
fn holds(
    alloc: Global,
    flashes: &(MemFlash, MemFlash),
    reads: (&[u64], &[u64]),
    contents: Contents,
) -> Option<()> {
    let flash = flash_of(alloc, flashes.0.bytes(), reads.0)?;
    let eeprom = flash_of(alloc, flashes.1.bytes(), reads.1)?;
    try_pair(alloc, flash, eeprom, &FailedRead { contents })?;
    Some(())
}

fn each_holds(alloc: Global, flashes: &(MemFlash, MemFlash), contents: Contents) -> Option<()> {
    for nth in 1..=FLASH_READS {
        holds(alloc, flashes, (&[nth], &[]), contents)?;
    }
    for nth in 1..=EEPROM_READS {
        holds(alloc, flashes, (&[], &[nth]), contents)?;
    }
    Some(())
}

fn script(alloc: Global) -> Result<Vec<Write>, AllocError> {
    let mut writes = Vec::new(alloc);
    for (number, byte, operations) in SCRIPT {
        writes.push(Write {
            number,
            byte,
            operations,
        })?;
    }
    Ok(writes)
}

fn all_hold(alloc: Global) -> Option<()> {
    let writes = script(alloc).ok()?;
    let flashes = tried(alloc, false, &[], &Done { writes: &writes })?;
    each_holds(alloc, &flashes, behind(&writes))
}

#[test]
fn a_failure_at_each_read_of_either(rt: HostRuntime) {
    assert!(rt; all_hold(rt.alloc()).is_some());
}
