// The device of a small flash and a small EEPROM, with two numbers each.
ghost use Rattle.std.specs.Prelude.{◌≡◌, ◌∷◌, [], IfOk};
ghost use Rattle.memif_fee_ea.specs.ea_slots.ea_told.Making.{HasSlots};

use crate::steps::{Content, gives, turns};
use crate::trial::Trial;
use memif_fee_ea::{
    DeviceNumber, Flash, Geometry, JobResult, Lengths, MemDevice, PlainMark, Shapes, ea_slots,
    fee_core, lengths_of, make,
};
use std::alloc::{AllocError, Global};
use std::marker::Brand;

/// The numbers of the flash and those of the EEPROM, by turns.
pub(crate) const FLASH_A: DeviceNumber = DeviceNumber(64);

pub(crate) const EEPROM_A: DeviceNumber = DeviceNumber(128);

pub(crate) const FLASH_B: DeviceNumber = DeviceNumber(192);

pub(crate) const EEPROM_B: DeviceNumber = DeviceNumber(256);

// Two banks of five sectors of four pages; and four sectors for the two slots of a number.
const SHAPES: Shapes = Shapes {
    flash: Geometry {
        page: 16,
        sector: 64,
        sectors: 10,
    },
    banks: 2,
    reserve: 0,
    eeprom: Geometry {
        page: 16,
        sector: 64,
        sectors: 8,
    },
};

fn flash_numbers(alloc: Global) -> Result<Lengths, AllocError>
    ensures { IfOk result (λ l. l ≡ (FLASH_A, 4) ∷ (FLASH_B, 4) ∷ []) }
{
    lengths_of(alloc, &[(FLASH_A, 4), (FLASH_B, 4)])
}

fn eeprom_numbers(alloc: Global) -> Result<Lengths, AllocError>
    ensures { IfOk result (λ l. l ≡ (EEPROM_A, 4) ∷ (EEPROM_B, 4) ∷ []) }
{
    lengths_of(alloc, &[(EEPROM_A, 4), (EEPROM_B, 4)])
}

// Makes the device, and a trial with it; gives both flashes back where that comes to what is expected.
fn try_made<F: Flash + Drop, O: fee_core::Origin, G: Flash + Drop, P: ea_slots::Origin, T: Trial>(
    alloc: Global,
    flash: F,
    eeprom: G,
    trial: &T,
) -> Option<(F, G)>
    requires first { O.making ≡ record { geometry = SHAPES.flash; banks = SHAPES.banks; numbers = (FLASH_A, 4) ∷ (FLASH_B, 4) ∷ []; reserve = SHAPES.reserve } }
    requires entry { O.entry ≡ F.told flash }
    requires second { P.making ≡ record { geometry = SHAPES.eeprom; numbers = (EEPROM_A, 4) ∷ (EEPROM_B, 4) ∷ [] } }
    requires eeprom { P.entry ≡ G.told eeprom }
    requires slots { HasSlots P.making }
{
    let numbers = flash_numbers(alloc).ok()?;
    let second = eeprom_numbers(alloc).ok()?;
    let device = make::<F, O, G, P>(alloc, flash, eeprom, SHAPES, &numbers, &second).ok()?;
    let both = trial.try_with(alloc, device)?.into_pair();
    Some((both.first.into_flash(), both.second.into_flash()))
}

/// Makes a trial with the device over both. None where it doesn't come to what is expected, or for want of memory.
pub(crate) fn try_pair<F: Flash + Drop, G: Flash + Drop, T: Trial>(
    alloc: Global,
    flash: F,
    eeprom: G,
    trial: &T,
) -> Option<(F, G)> {
    try_made::<F, Brand, G, Brand, T>(alloc, flash, eeprom, trial)
}

/// A write of a number, of four equal bytes, with the operations that it makes of its own flash.
#[derive(Clone, Copy)]
pub(crate) struct Write {
    pub(crate) number: DeviceNumber,
    pub(crate) byte: u8,
    pub(crate) operations: u32,
}

impl Write {
    fn content(self) -> Content {
        [self.byte; 4]
    }

    pub(crate) fn is_of_eeprom(self) -> bool {
        self.number == EEPROM_A || self.number == EEPROM_B
    }

    /// Starts it.
    pub(crate) fn starts<D: MemDevice>(self, device: &mut D) -> bool {
        device
            .start_write(self.number, &self.content(), false)
            .is_ok()
    }

    // Whether it is done, by as many operations.
    fn is_made<D: MemDevice>(self, device: &mut D) -> bool {
        let before = device.ops();
        let started = self.starts(device);
        turns(device);
        started
            && device.ops() == before.saturating_add(u64::from(self.operations))
            && device.result() == JobResult::JobOk
    }
}

/// Whether each of these writes is done.
pub(crate) fn makes<D: MemDevice>(device: &mut D, writes: &[Write]) -> bool {
    for write in writes {
        if !write.is_made(device) {
            return false;
        }
    }
    true
}

/// What each number holds.
pub(crate) type Contents = [(DeviceNumber, Option<Content>); 4];

const NOTHING: Contents = [
    (FLASH_A, None),
    (EEPROM_A, None),
    (FLASH_B, None),
    (EEPROM_B, None),
];

/// Notes a write.
pub(crate) fn note(contents: &mut Contents, write: Write) {
    for place in 0..4 {
        if contents[place].0 == write.number {
            contents[place].1 = Some(write.content());
        }
    }
}

/// Behind these writes.
pub(crate) fn behind(writes: &[Write]) -> Contents {
    let mut contents = NOTHING;
    for write in writes {
        note(&mut contents, *write);
    }
    contents
}

fn holds<D: MemDevice>(device: &mut D, number: DeviceNumber, content: Option<Content>) -> bool {
    match content {
        Some(content) => gives(device, number, &content),
        None => matches!(device.mark_kind(number), Some(PlainMark::Erased)),
    }
}

/// Whether each number holds this.
pub(crate) fn holds_all<D: MemDevice>(device: &mut D, contents: Contents) -> bool {
    for (number, content) in contents {
        if !holds(device, number, content) {
            return false;
        }
    }
    true
}
