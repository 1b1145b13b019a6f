// The device over a flash and an EEPROM.
ghost use Rattle.std.specs.Prelude.{◌≡◌, ◌≢◌, ℕ, IfErr, IfOk, IfSome, None, Some};
ghost use Rattle.nvm_core.specs.block_config.Config.{Configuration};
ghost use Rattle.nvm_core.specs.block_config.Lengths.{device_lengths, lengths_of};
ghost use Rattle.nvm_core.specs.block_config.Rules.{IsLegalConfig};
ghost use Rattle.memif_fee_ea.specs.fee_core.nv_base.Lengths.{AreLengths};
ghost use Rattle.memif_fee_ea.specs.fee_core.fls_model.Told.{Told, Change};
ghost use Rattle.memif_fee_ea.specs.fee_core.fee_told.Device.{told_of};
ghost use Rattle.memif_fee_ea.specs.ea_slots.Whole.{told_in, clock_in, part_at};
ghost use Rattle.memif_fee_ea.specs.ea_slots.ea_told.Making.{Making};
ghost use Rattle.memif_fee_ea.specs.ea_slots.ea_told.Reading.{reading_of};
ghost use Rattle.memif_fee_ea.specs.memif_pair.Both.{told_as};
ghost use Rattle.memif_fee_ea.specs.Made.{AreParts, IsMadeOf};
ghost use Rattle.fls_devices.specs.Cutter.{cutting, told_cutting};
ghost use Rattle.nvm_flash.specs.Made.{IsPartBack};
ghost use Rattle.promise_run.specs.Promise.{making_first};
ghost use Rattle.nvm_flash.specs.PairMaking.{making_second, fixed_of_first};
ghost use Rattle.nvm_flash.specs.Sized.{HasSizeOf};
ghost use Rattle.nvm_flash.specs.PairMade.{AreBack, AreOrigins, ComeBack, pair_fault};

use crate::back::give_bank_back;
use crate::device::{MakeFault, fault_of};
use crate::sized::look_at_both;
use fls_devices::Cutter;
use memif_fee_ea::ea_slots::{self, Ea};
use memif_fee_ea::fee_core::{Flash, Geometry, Lengths, MemIf, Origin, SizedFlash};
use memif_fee_ea::{FlashAndEeprom, PairAttachFault, PairPart, Shapes, make};
use nvm_core::Config;
use std::alloc::{AllocError, Global};
use thiserror::Error;

/// One device over the banks of a flash and the slots of an EEPROM, whose power may be cut.
pub type PairDevice<F, O, G, P> = FlashAndEeprom<Cutter<F>, O, Cutter<G>, P>;

/// How many power cuts of each can be planned.
#[derive(Clone, Copy)]
pub struct PairCuts {
    pub flash: u32,
    pub eeprom: u32,
}

/// Why a stack over a flash and an EEPROM isn't made or started: by one of both, by its configuration, which has no second device, or
/// for want of memory.
#[derive(Clone, Copy, Debug, Error)]
pub enum PairFault {
    #[error("of the flash: {0}")]
    OfFlash(MakeFault),
    #[error("of the EEPROM: {0}")]
    OfEeprom(MakeFault),
    #[error("the configuration names no second device")]
    OneDevice,
    #[error("there is no memory for the stack")]
    Memory,
}

/// The device of a configuration over a flash and an EEPROM, of each of which so many power cuts can be planned. A configuration without a
/// second device is refused.
pub fn make_pair<F: SizedFlash, O: Origin, G: SizedFlash, P: ea_slots::Origin>(
    alloc: Global,
    config: &Config,
    flash: F,
    eeprom: G,
    cuts: PairCuts,
) -> Result<PairDevice<F, O, G, P>, (PairFault, F, G)>
    requires { AreOrigins config.now (F.told flash) (G.told eeprom) cuts O.making O.entry P.making P.entry }
    ensures made { IfOk result (λ d. IsMadeOf O.making O.entry P.making d) }
    ensures parts { IfOk result (λ d. AreParts O.entry P.entry (told_as told_of told_in d)) }
    ensures numbers { IfOk result (λ d. (told_as told_of told_in d).fixed.numbers ≡ lengths_of config.now) }
    ensures figures { IfOk result (λ d. (told_of d.first).fixed ≡ fixed_of_first config.now) }
    ensures two_devices { IfOk result (λ _. config.now.eeprom ≢ None) }
    ensures legal { IsLegalConfig config.now }
    ensures stopped { IfErr result (λ e. ComeBack config.now e.0 (F.told flash) (F.told e.1) (G.told eeprom) (G.told e.2)) }
{
    match config.second() {
        Some(shape) => make_sized(alloc, config, shape, flash, eeprom, cuts),
        None => Err((PairFault::OneDevice, flash, eeprom)),
    }
}

// So for one with a second device of this shape: both sizes are looked at first.
fn make_sized<F: SizedFlash, O: Origin, G: SizedFlash, P: ea_slots::Origin>(
    alloc: Global,
    config: &Config,
    shape: Geometry,
    flash: F,
    eeprom: G,
    cuts: PairCuts,
) -> Result<PairDevice<F, O, G, P>, (PairFault, F, G)>
    requires origins { AreOrigins config.now (F.told flash) (G.told eeprom) cuts O.making O.entry P.making P.entry }
    requires shape { config.now.eeprom ≡ Some shape }
    ensures made { IfOk result (λ d. IsMadeOf O.making O.entry P.making d) }
    ensures parts { IfOk result (λ d. AreParts O.entry P.entry (told_as told_of told_in d)) }
    ensures numbers { IfOk result (λ d. (told_as told_of told_in d).fixed.numbers ≡ lengths_of config.now) }
    ensures figures { IfOk result (λ d. (told_of d.first).fixed ≡ fixed_of_first config.now) }
    ensures legal { IsLegalConfig config.now }
    ensures stopped { IfErr result (λ e. ComeBack config.now e.0 (F.told flash) (F.told e.1) (G.told eeprom) (G.told e.2)) }
{
    let mut flash = flash;
    let mut eeprom = eeprom;
    match look_at_both(&mut flash, &mut eeprom, config.geometry(), shape) {
        Some(fault) => Err((fault, flash, eeprom)),
        None => make_both(alloc, config, shape, flash, eeprom, cuts),
    }
}

// So for flashes whose sizes are right.
fn make_both<F: Flash, O: Origin, G: Flash, P: ea_slots::Origin>(
    alloc: Global,
    config: &Config,
    shape: Geometry,
    flash: F,
    eeprom: G,
    cuts: PairCuts,
) -> Result<PairDevice<F, O, G, P>, (PairFault, F, G)>
    requires origins { AreOrigins config.now (F.told flash) (G.told eeprom) cuts O.making O.entry P.making P.entry }
    requires shape { config.now.eeprom ≡ Some shape }
    requires sized { HasSizeOf shape (G.told eeprom).bytes }
    ensures made { IfOk result (λ d. IsMadeOf O.making O.entry P.making d) }
    ensures parts { IfOk result (λ d. AreParts O.entry P.entry (told_as told_of told_in d)) }
    ensures numbers { IfOk result (λ d. (told_as told_of told_in d).fixed.numbers ≡ lengths_of config.now) }
    ensures figures { IfOk result (λ d. (told_of d.first).fixed ≡ fixed_of_first config.now) }
    ensures legal { IsLegalConfig config.now }
    ensures stopped { IfErr result (λ e. ComeBack config.now e.0 (F.told flash) (F.told e.1) (G.told eeprom) (G.told e.2)) }
{
    let _blocks = config.blocks();
    let Ok(numbers) = numbers_of(alloc, config) else {
        return Err((PairFault::Memory, flash, eeprom));
    };
    let first = match Cutter::make(alloc, flash, cuts.flash) {
        Ok(first) => first,
        Err(failed) => return Err((PairFault::Memory, failed.value, eeprom)),
    };
    match Cutter::make(alloc, eeprom, cuts.eeprom) {
        Ok(second) => make_over(alloc, config, shape, first, second, &numbers),
        Err(failed) => Err((PairFault::Memory, first.into_inner(), failed.value)),
    }
}

// The numbers of the first device, and those of the second one.
fn numbers_of(alloc: Global, config: &Config) -> Result<(Lengths, Lengths), AllocError>
    ensures first { IfOk result (λ n. (n.0 ≡ device_lengths 0 config.now) × AreLengths 0 n.0) }
    ensures second { IfOk result (λ n. (n.1 ≡ device_lengths 1 config.now) × AreLengths 0 n.1) }
{
    let first = config.lengths(alloc)?;
    let second = config.lengths_second(alloc)?;
    first.len();
    second.len();
    Ok((first, second))
}

// Of these numbers, over cutters that were just made.
fn make_over<F: Flash, O: Origin, G: Flash, P: ea_slots::Origin>(
    alloc: Global,
    config: &Config,
    shape: Geometry,
    first: Cutter<F>,
    second: Cutter<G>,
    numbers: &(Lengths, Lengths),
) -> Result<PairDevice<F, O, G, P>, (PairFault, F, G)>
    requires first { O.making ≡ making_first config.now }
    requires second { P.making ≡ making_second shape config.now }
    requires entry { O.entry ≡ told_cutting first }
    requires eeprom { P.entry ≡ told_cutting second }
    requires numbers { (numbers.now.0 ≡ device_lengths 0 config.now) × AreLengths 0 numbers.now.0 }
    requires others { (numbers.now.1 ≡ device_lengths 1 config.now) × AreLengths 0 numbers.now.1 }
    requires shape { config.now.eeprom ≡ Some shape }
    ensures made { IfOk result (λ d. IsMadeOf O.making O.entry P.making d) }
    ensures parts { IfOk result (λ d. AreParts O.entry P.entry (told_as told_of told_in d)) }
    ensures numbers { IfOk result (λ d. (told_as told_of told_in d).fixed.numbers ≡ lengths_of config.now) }
    ensures figures { IfOk result (λ d. (told_of d.first).fixed ≡ fixed_of_first config.now) }
    ensures stopped { IfErr result (λ e. (inner other : Told) (cuts : PairCuts) → first ≡ cutting inner cuts.flash → second ≡ cutting other cuts.eeprom → HasSizeOf shape other.bytes → ComeBack config.now e.0 inner (F.told e.1) other (G.told e.2)) }
{
    let shapes = Shapes {
        flash: config.geometry(),
        banks: config.banks(),
        reserve: config.reserve_pages(),
        eeprom: shape,
    };
    match make(alloc, first, second, shapes, &numbers.0, &numbers.1) {
        Ok(device) => Ok(device),
        Err((fault, first, second)) => {
            Err((pair_fault(fault), first.into_inner(), second.into_inner()))
        }
    }
}

fn pair_fault(fault: PairAttachFault) -> PairFault
    ensures { result ≡ pair_fault fault }
{
    match fault.part {
        PairPart::Flash => PairFault::OfFlash(fault_of(fault.fault)),
        PairPart::Eeprom => PairFault::OfEeprom(fault_of(fault.fault)),
    }
}

/// Gives the flash and the EEPROM of a device back.
pub fn give_pair_back<F: Flash, O: Origin, G: Flash, P: ea_slots::Origin>(
    device: PairDevice<F, O, G, P>,
) -> (F, G)
    ensures { (c : Configuration) (inner other : Told) (cuts : PairCuts) → AreOrigins c inner other cuts O.making O.entry P.making P.entry → AreBack c inner (F.told result.0) other (G.told result.1) O.entry P.entry device }
{
    let MemIf { first, second } = device.into_pair();
    (give_bank_back(first), give_slots_back(second))
}

/// That of a device over slots, whatever configuration it was made for.
pub(crate) fn give_slots_back<G: Flash, P: ea_slots::Origin>(device: Ea<Cutter<G>, P>) -> G
    ensures { (m : Making) (other : Told) (cuts : ℕ) → P.making ≡ m → P.entry ≡ told_cutting (cutting other cuts) → IsPartBack (reading_of m) other (G.told result) device.parts.operations (part_at P.entry) (told_in device) (clock_in device) }
{
    device.into_flash().into_inner()
}
