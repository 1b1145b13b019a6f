// One device of two: one in memory beside one over paired slots, and one over a flash beside one over an EEPROM.
ghost use Rattle.std.specs.Prelude.{◌≡◌, ◌∷◌, [], IfOk};
ghost use Rattle.memif_fee_ea.specs.memif_pair.memif.Plain.{plain_store};
ghost use Rattle.memif_fee_ea.specs.ea_slots.ea_told.Making.{HasSlots};
ghost use Rattle.memif_fee_ea.specs.ea_slots.Whole.{IsMadeOf, told_in};

use crate::harms::cutter;
use crate::pairs::{FLASH_A, try_pair};
use crate::slots::{SMALL, one_number};
use crate::steps::{Content, NUMBER, gives, turns};
use crate::trial::Trial;
use memif_fee_ea::ea_slots::{Ea, Origin};
use memif_fee_ea::memif_pair::Both;
use memif_fee_ea::{
    DeviceNumber, DeviceRefusal, Flash, JobResult, MemDevice, MemIf, PlainStore, lengths_of,
};
use std::alloc::{AllocError, Global};
use std::marker::Brand;

// One that no device has.
const IN_NEITHER: DeviceNumber = DeviceNumber(320);

const OLD: Content = [0x11, 0x22, 0x33, 0x44];

const NEW: Content = [0x55, 0x66, 0x77, 0x88];

fn device_in_memory(alloc: Global) -> Result<PlainStore, AllocError>
    ensures { IfOk result (λ p. p ≡ plain_store ((FLASH_A, 4) ∷ [])) }
{
    let numbers = lengths_of(alloc, &[(FLASH_A, 4)])?;
    PlainStore::make(alloc, &numbers)
}

// One device of one in memory and one over slots, each as it was made.
fn both_of<F: Flash, O: Origin>(
    in_memory: PlainStore,
    over_slots: Ea<F, O>,
) -> Both<PlainStore, Ea<F, O>>
    requires in_memory { in_memory ≡ plain_store ((FLASH_A, 4) ∷ []) }
    requires over_slots { IsMadeOf O.making (told_in over_slots) }
    requires slots { HasSlots O.making }
    requires number { O.making.numbers ≡ (NUMBER, 4) ∷ [] }
{
    Both::make(MemIf {
        first: in_memory,
        second: over_slots,
    })
}

// Makes the device of both, and a trial with it; gives the flash back where that comes to what is expected.
fn try_made<F: Flash + Drop, O: Origin, T: Trial>(alloc: Global, flash: F, trial: &T) -> Option<F>
    requires slots { HasSlots O.making }
    requires making { O.making ≡ record { geometry = SMALL; numbers = (NUMBER, 4) ∷ [] } }
    requires entry { O.entry ≡ F.told flash }
{
    let in_memory = device_in_memory(alloc).ok()?;
    let numbers = one_number(alloc).ok()?;
    let over_slots = Ea::<F, O>::make(alloc, flash, SMALL, &numbers).ok()?;
    let device = both_of(in_memory, over_slots);
    let device = trial.try_with(alloc, device)?;
    let (_, over_slots) = device.into_pair().into_parts();
    Some(over_slots.into_flash())
}

// None where a trial doesn't come to what is expected, or for want of memory.
fn try_over<F: Flash + Drop, T: Trial>(alloc: Global, flash: F, trial: &T) -> Option<F> {
    try_made::<F, Brand, T>(alloc, flash, trial)
}

// Whether a write is done in so many turns, of which so many make an operation.
fn writes<D: MemDevice>(
    device: &mut D,
    number: DeviceNumber,
    content: &Content,
    count: (u32, u64),
) -> bool {
    let before = device.ops();
    device.start_write(number, content, false).is_ok()
        && turns(device) == count.0
        && device.result() == JobResult::JobOk
        && device.ops() == before.saturating_add(count.1)
}

// Whether the power of the second part goes off at the second operation of a write.
fn is_cut<D: MemDevice>(device: &mut D) -> bool {
    device.arm(1, 2, 0);
    device.start_write(NUMBER, &NEW, false).is_ok()
        && turns(device) == 1
        && device.result() == JobResult::JobPending
}

fn is_refused<D: MemDevice>(device: &mut D) -> bool {
    matches!(
        device.start_read(IN_NEITHER, 4),
        Err(DeviceRefusal::BadNumber)
    )
}

// Whether each number is its own device's: what the other one holds is kept over a power cut of this one. Two writes of the first
// one's take so many turns and operations.
#[derive(Clone, Copy)]
struct EachOnItsOwn {
    old: (u32, u64),
    new: (u32, u64),
}

impl Trial for EachOnItsOwn {
    fn try_with<D: MemDevice + Drop>(&self, _alloc: Global, device: D) -> Option<D> {
        let mut device = device;
        device.start().ok()?;
        let holds = is_refused(&mut device)
            && writes(&mut device, NUMBER, &OLD, (5, 5))
            && writes(&mut device, FLASH_A, &OLD, self.old)
            && writes(&mut device, FLASH_A, &NEW, self.new)
            && is_cut(&mut device);
        device.start().ok()?;
        let kept = gives(&mut device, NUMBER, &OLD) && gives(&mut device, FLASH_A, &NEW);
        (holds && kept).then_some(device)
    }
}

// The device in memory makes no operation.
fn each_holds(alloc: Global) -> Option<()> {
    let in_memory = EachOnItsOwn {
        old: (1, 0),
        new: (1, 0),
    };
    try_over(alloc, cutter(alloc)?, &in_memory)?;
    Some(())
}

// The first write of a flash makes a bank of it.
fn each_holds_on_flashes(alloc: Global) -> Option<()> {
    let on_flash = EachOnItsOwn {
        old: (11, 11),
        new: (4, 4),
    };
    try_pair(alloc, cutter(alloc)?, cutter(alloc)?, &on_flash)?;
    Some(())
}

#[test]
fn each_number_on_its_own_device(rt: HostRuntime) {
    assert!(rt; each_holds(rt.alloc()).is_some());
    assert!(rt; each_holds_on_flashes(rt.alloc()).is_some());
}
