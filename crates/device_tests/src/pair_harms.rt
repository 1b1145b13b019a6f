// What a start-up finds of each number of a flash and an EEPROM behind a power cut and behind a failure at each operation of either.
// Each check is None where something isn't as expected, or for want of memory.
use crate::harms::{Harm, KEEPS};
use crate::pairs::{
    Contents, EEPROM_A, EEPROM_B, FLASH_A, FLASH_B, Write, behind, holds_all, makes, note, try_pair,
};
use crate::steps::turns;
use crate::trial::Trial;
use fls_devices::{Cutter, FaultScript};
use memif_fee_ea::{DeviceNumber, Flash, JobResult, MemDevice, MemFlash, mem_flash};
use std::alloc::Global;

// Writes, each of four bytes, with the operations that it makes of its own flash. The first write of the flash erases a bank of five
// sectors, and programs its head and gate. A record takes four pages: its head, a gate, the content, a gate. A bank has room for
// four. The write behind them goes to the next bank: it takes five erases, a copy of each number, the bank's head and gate, and its
// record. A write to a slot takes two erases, the content, the head and the gate. By its last operation each write counts.
pub(crate) const SCRIPT: [(DeviceNumber, u8, u32); 10] = [
    (FLASH_A, 1, 11),
    (EEPROM_A, 2, 5),
    (FLASH_B, 3, 4),
    (EEPROM_A, 4, 5),
    (FLASH_B, 5, 4),
    (FLASH_A, 6, 4),
    (EEPROM_A, 7, 5),
    (FLASH_A, 8, 19),
    (EEPROM_B, 9, 5),
    (FLASH_B, 10, 4),
];

// A flash whose power can be cut once, and of which listed operations fail.
type Harmable = FaultScript<Cutter<MemFlash>>;

fn harmable(alloc: Global, faults: &[(u64, u32)]) -> Option<Harmable> {
    let flash = mem_flash(alloc, &[], 0).ok()?;
    let flash = Cutter::make(alloc, flash, 1).ok()?;
    FaultScript::make(alloc, flash, faults, &[]).ok()
}

// What is tried with the device over two of them, of one of which these operations fail. Gives the flashes within back.
pub(crate) fn tried<T: Trial>(
    alloc: Global,
    of_eeprom: bool,
    faults: &[(u64, u32)],
    trial: &T,
) -> Option<(MemFlash, MemFlash)> {
    let (flash, eeprom) = if of_eeprom {
        (harmable(alloc, &[])?, harmable(alloc, faults)?)
    } else {
        (harmable(alloc, faults)?, harmable(alloc, &[])?)
    };
    let (flash, eeprom) = try_pair(alloc, flash, eeprom, trial)?;
    let flash = flash.into_inner().into_inner();
    Some((flash, eeprom.into_inner().into_inner()))
}

// Writes that are done, and one behind them that is harmed.
#[derive(Clone, Copy)]
struct Case<'a> {
    done: &'a [Write],
    next: Write,
    harm: Harm,
}

impl<'a> Case<'a> {
    // What is found behind it: the harmed write counts where all of its last operation is done.
    fn found(self) -> Contents {
        let mut contents = behind(self.done);
        if self.harm.nth == self.next.operations && self.harm.keep == 16 {
            note(&mut contents, self.next);
        }
        contents
    }

    // The operation that is harmed, among those of its flash.
    fn operation(self) -> u64 {
        let mut before: u64 = 0;
        for write in self.done {
            if write.is_of_eeprom() == self.next.is_of_eeprom() {
                before = before.saturating_add(u64::from(write.operations));
            }
        }
        before.saturating_add(u64::from(self.harm.nth))
    }
}

// Whether these writes are done behind a start-up.
#[derive(Clone, Copy)]
pub(crate) struct Done<'a> {
    pub(crate) writes: &'a [Write],
}

impl<'a> Trial for Done<'a> {
    fn try_with<D: MemDevice + Drop>(&self, _alloc: Global, device: D) -> Option<D> {
        let mut device = device;
        device.start().ok()?;
        makes(&mut device, self.writes).then_some(device)
    }
}

// Whether the write of a case is cut, and what it leaves is found behind a start-up.
#[derive(Clone, Copy)]
struct CutIn<'a> {
    case: Case<'a>,
}

impl<'a> CutIn<'a> {
    fn is_cut<D: MemDevice>(&self, device: &mut D) -> bool {
        let Case { next, harm, .. } = self.case;
        let before = device.ops();
        device.arm(u8::from(next.is_of_eeprom()), harm.nth, harm.keep);
        let started = next.starts(device);
        turns(device);
        started
            && device.ops() == before.saturating_add(u64::from(harm.nth))
            && device.result() == JobResult::JobPending
    }
}

impl<'a> Trial for CutIn<'a> {
    fn try_with<D: MemDevice + Drop>(&self, _alloc: Global, device: D) -> Option<D> {
        let mut device = device;
        device.start().ok()?;
        let is_cut = makes(&mut device, self.case.done) && self.is_cut(&mut device);
        device.start().ok()?;
        (is_cut && holds_all(&mut device, self.case.found())).then_some(device)
    }
}

// Makes turns until no job is open. Work of the device's own may be left.
fn end_job<D: MemDevice>(device: &mut D) {
    for _ in 0..60 {
        if device.result() != JobResult::JobPending {
            return;
        }
        device.turn();
    }
}

// Whether the write of a case fails, and what was settled stays, also behind the switch that its failure leaves open.
#[derive(Clone, Copy)]
struct FailIn<'a> {
    case: Case<'a>,
}

impl<'a> FailIn<'a> {
    fn fails<D: MemDevice>(&self, device: &mut D) -> bool {
        let before = (device.ops(), device.faults());
        let started = self.case.next.starts(device);
        end_job(device);
        started
            && device.ops() == before.0.saturating_add(u64::from(self.case.harm.nth))
            && device.faults() == before.1.saturating_add(1)
            && device.result() == JobResult::JobFailed
    }
}

impl<'a> Trial for FailIn<'a> {
    fn try_with<D: MemDevice + Drop>(&self, _alloc: Global, device: D) -> Option<D> {
        let mut device = device;
        device.start().ok()?;
        let fails = makes(&mut device, self.case.done) && self.fails(&mut device);
        turns(&mut device);
        (fails && holds_all(&mut device, behind(self.case.done))).then_some(device)
    }
}

// Whether another device finds what a case leaves.
#[derive(Clone, Copy)]
struct Finds<'a> {
    case: Case<'a>,
}

// The last bytes of both devices' numbers.
const ON: [(DeviceNumber, u8); 2] = [(FLASH_A, 11), (EEPROM_A, 12)];

impl<'a> Trial for Finds<'a> {
    fn try_with<D: MemDevice + Drop>(&self, _alloc: Global, device: D) -> Option<D> {
        let mut device = device;
        device.start().ok()?;
        let mut contents = self.case.found();
        let mut holds = holds_all(&mut device, contents);
        for (number, byte) in ON {
            let write = Write {
                number,
                byte,
                operations: 0,
            };
            holds = holds && write.starts(&mut device);
            turns(&mut device);
            note(&mut contents, write);
        }
        (holds && holds_all(&mut device, contents)).then_some(device)
    }
}

// Whether another device over both flashes finds what a case leaves, and goes on, and the flash that it doesn't write to is as before.
fn found_holds(
    alloc: Global,
    case: Case<'_>,
    flashes: (MemFlash, MemFlash),
    before: &(MemFlash, MemFlash),
) -> Option<()> {
    let (flash, eeprom) = flashes;
    let same = if case.next.is_of_eeprom() {
        flash.bytes() == before.0.bytes()
    } else {
        eeprom.bytes() == before.1.bytes()
    };
    let (flash, eeprom) = try_pair(alloc, flash, eeprom, &Finds { case })?;
    same.then_some(())
}

fn case_holds(alloc: Global, case: Case<'_>, before: &(MemFlash, MemFlash)) -> Option<()> {
    let of_eeprom = case.next.is_of_eeprom();
    let cut = tried(alloc, of_eeprom, &[], &CutIn { case })?;
    found_holds(alloc, case, cut, before)?;
    let faults = [(case.operation(), case.harm.keep)];
    let failed = tried(alloc, of_eeprom, &faults, &FailIn { case })?;
    found_holds(alloc, case, failed, before)
}

// Each operation of the write behind these, with each count of bytes.
fn each_holds(alloc: Global, done: &[Write], next: Write) -> Option<()> {
    let before = tried(alloc, false, &[], &Done { writes: done })?;
    for nth in 1..=next.operations {
        for keep in KEEPS {
            let harm = Harm { nth, keep };
            case_holds(alloc, Case { done, next, harm }, &before)?;
        }
    }
    Some(())
}

fn all_hold(alloc: Global) -> Option<()> {
    let mut done = Vec::new(alloc);
    for (number, byte, operations) in SCRIPT {
        let next = Write {
            number,
            byte,
            operations,
        };
        each_holds(alloc, &done, next)?;
        done.push(next).ok()?;
    }
    Some(())
}

#[test]
fn a_harm_at_each_operation_of_either(rt: HostRuntime) {
    assert!(rt; all_hold(rt.alloc()).is_some());
}
