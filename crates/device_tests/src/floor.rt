// The floor: two devices behind one interface, a run of calls, and work, over a device in memory, over one of paired slots, and over
// one of a flash and an EEPROM.
use crate::pairs::{FLASH_A, try_pair};
use crate::slots::{one_number, try_over};
use crate::steps::NUMBER;
use crate::trial::Trial;
use memif_fee_ea::{
    DeviceCall, DeviceNumber, DeviceStep, DeviceTurn, JobResult, MemDevice, MemIf, PlainStore,
    Rest, bytes_of, erase, make_turns, mem_flash, run_calls, start_up,
};
use std::alloc::{AllocError, Global};

fn make_store(alloc: Global) -> Option<PlainStore> {
    let numbers = one_number(alloc).ok()?;
    PlainStore::make(alloc, &numbers).ok()
}

// A trial with a device of a flash and an EEPROM.
fn is_tried_of_both<T: Trial>(alloc: Global, trial: &T) -> Option<()> {
    let flash = mem_flash(alloc, &[], 40).ok()?;
    let eeprom = mem_flash(alloc, &[], 40).ok()?;
    try_pair(alloc, flash, eeprom, trial)?;
    Some(())
}

// A trial with a device over paired slots, by itself and beside a flash, with one in memory, and on a number of the flash.
fn is_tried<T: Trial>(alloc: Global, over_slots: &T, in_memory: &T, on_flash: &T) -> Option<()> {
    let flash = mem_flash(alloc, &[], 40).ok()?;
    try_over(alloc, flash, over_slots)?;
    in_memory.try_with(alloc, make_store(alloc)?)?;
    is_tried_of_both(alloc, over_slots)?;
    is_tried_of_both(alloc, on_flash)
}

// Makes turns of one of two devices until it doesn't work.
fn turn_second<A: MemDevice, B: MemDevice>(devices: &mut MemIf<A, B>) {
    for _ in 0..20 {
        match devices.turn(1) {
            DeviceTurn::Worked => {}
            DeviceTurn::Idle | DeviceTurn::Off => return,
        }
    }
}

// Whether a content that one device of two takes is read back.
#[derive(Clone, Copy)]
struct ReadBack {
    number: DeviceNumber,
}

impl Trial for ReadBack {
    fn try_with<D: MemDevice + Drop>(&self, alloc: Global, device: D) -> Option<D> {
        let mut devices = MemIf::make(PlainStore::without_numbers(alloc), device);
        devices.start(1).ok()?;
        devices.start_write(1, self.number, b"abcd", false).ok()?;
        turn_second(&mut devices);
        devices.start_read(1, self.number, 4).ok()?;
        turn_second(&mut devices);
        let is_read = devices.take_data(1) == b"abcd".as_slice();
        let (_, device) = devices.into_parts();
        is_read.then_some(device)
    }
}

#[test]
fn a_job_of_one_device_of_two(rt: HostRuntime) {
    let with_slots = ReadBack { number: NUMBER };
    let on_flash = ReadBack { number: FLASH_A };
    assert!(rt; is_tried(rt.alloc(), &with_slots, &with_slots, &on_flash).is_some());
}

// An urgent write, a cancel and so many turns.
fn urgent_calls(
    alloc: Global,
    number: DeviceNumber,
    turns: usize,
) -> Result<Vec<DeviceCall>, AllocError> {
    let content = bytes_of(alloc, b"abcd")?;
    let mut calls = Vec::new(alloc);
    calls.push(DeviceCall::Write {
        number,
        content,
        urgent: true,
    })?;
    calls.push(DeviceCall::Cancel)?;
    for _ in 0..turns {
        calls.push(DeviceCall::Turn)?;
    }
    Ok(calls)
}

// Whether an urgent write isn't canceled, and is done in so many turns.
#[derive(Clone, Copy)]
struct UrgentWrite {
    number: DeviceNumber,
    turns: usize,
}

// Whether the job is open behind each call but the last one, by which it is done.
fn ends_last(steps: &[DeviceStep]) -> bool {
    match steps.split_last() {
        Some((last, open)) => {
            matches!(last.result, JobResult::JobOk)
                && open
                    .iter()
                    .all(|step| matches!(step.result, JobResult::JobPending))
        }
        None => false,
    }
}

impl Trial for UrgentWrite {
    fn try_with<D: MemDevice + Drop>(&self, alloc: Global, device: D) -> Option<D> {
        let mut device = device;
        start_up(&mut device).ok()?;
        let calls = urgent_calls(alloc, self.number, self.turns).ok()?;
        let steps = run_calls(alloc, &mut device, calls.as_slice()).ok()?;
        ends_last(steps.as_slice()).then_some(device)
    }
}

#[test]
fn runs_calls_but_no_cancel_of_an_urgent_job(rt: HostRuntime) {
    let over_slots = UrgentWrite {
        number: NUMBER,
        turns: 5,
    };
    let in_memory = UrgentWrite {
        number: NUMBER,
        turns: 1,
    };
    let on_flash = UrgentWrite {
        number: FLASH_A,
        turns: 11,
    };
    assert!(rt; is_tried(rt.alloc(), &over_slots, &in_memory, &on_flash).is_some());
}

// Whether a device is started, erases a number in so many turns, and comes to rest then.
#[derive(Clone, Copy)]
struct ErasesInTurns {
    number: DeviceNumber,
    turns: u64,
}

impl Trial for ErasesInTurns {
    fn try_with<D: MemDevice + Drop>(&self, _alloc: Global, device: D) -> Option<D> {
        let mut device = device;
        start_up(&mut device).ok()?;
        let turns = erase(&mut device, self.number).ok()?;
        let rests = matches!(make_turns(&mut device), Rest::Idle);
        (rests && turns == self.turns).then_some(device)
    }
}

#[test]
fn work_over_any_device(rt: HostRuntime) {
    let over_slots = ErasesInTurns {
        number: NUMBER,
        turns: 4,
    };
    let in_memory = ErasesInTurns {
        number: NUMBER,
        turns: 1,
    };
    let on_flash = ErasesInTurns {
        number: FLASH_A,
        turns: 10,
    };
    assert!(rt; is_tried(rt.alloc(), &over_slots, &in_memory, &on_flash).is_some());
}
