// The device.
ghost use Rattle.std.specs.Prelude.{◌≡◌, IfErr, IfOk, OnOk, None};
ghost use Rattle.nvm_core.specs.block_config.Rules.{IsLegalConfig};
ghost use Rattle.memif_fee_ea.specs.fee_core.fee_told.Device.{told_of};
ghost use Rattle.memif_fee_ea.specs.fee_core.fee_laws.Made.{IsMadeOf};
ghost use Rattle.nvm_flash.specs.Made.{AreOfFirst, ComesBack, IsOrigin, fault_of};
ghost use Rattle.nvm_flash.specs.Turns.{fixed_by};

use fls_devices::Cutter;
use memif_fee_ea::fee_core::{AttachFault, Fee, Flash, Origin};
use nvm_core::Config;
use std::alloc::Global;
use thiserror::Error;

/// Why a stack isn't made or started: its flash has a wrong size in bytes, or failed by a counted fault, or another call has it in
/// use, which counts as a fault too, or its configuration has a second device, or want of memory.
#[derive(Clone, Copy, Debug, Error)]
pub enum MakeFault {
    #[error("the flash has {found} bytes in place of the configuration's sector times sectors")]
    WrongSize { found: u64 },
    #[error("the flash counted a fault while the stack was made or started")]
    Flash,
    #[error("another call has the flash in use")]
    InUse,
    #[error("the configuration names a second device, and none is handed in")]
    NoSecond,
    #[error("there is no memory for the stack")]
    Memory,
}

/// The device of a configuration over a flash, of which so many power cuts can be planned. A configuration with a second device is
/// refused.
pub fn make_device<F: Flash, O: Origin>(
    alloc: Global,
    config: &Config,
    flash: F,
    cuts: u32,
) -> Result<Fee<Cutter<F>, O>, (MakeFault, F)>
    requires { IsOrigin config.now (F.told flash) cuts O.making O.entry }
    ensures made { IfOk result (λ d. IsMadeOf O.making O.entry d) }
    ensures parts { IfOk result AreOfFirst }
    ensures fixed { IfOk result (λ d. (told_of d).fixed ≡ fixed_by config.now) }
    ensures one_device { OnOk result (config.now.eeprom ≡ None) }
    ensures legal { IsLegalConfig config.now }
    ensures stopped { IfErr result (λ e. ComesBack config.now e.0 (F.told flash) (F.told e.1)) }
{
    match config.second() {
        Some(_) => Err((MakeFault::NoSecond, flash)),
        None => make_one(alloc, config, flash, cuts),
    }
}

// So for one without.
fn make_one<F: Flash, O: Origin>(
    alloc: Global,
    config: &Config,
    flash: F,
    cuts: u32,
) -> Result<Fee<Cutter<F>, O>, (MakeFault, F)>
    requires origin { IsOrigin config.now (F.told flash) cuts O.making O.entry }
    requires one_device { config.now.eeprom ≡ None }
    ensures made { IfOk result (λ d. IsMadeOf O.making O.entry d) }
    ensures parts { IfOk result AreOfFirst }
    ensures fixed { IfOk result (λ d. (told_of d).fixed ≡ fixed_by config.now) }
    ensures legal { IsLegalConfig config.now }
    ensures stopped { IfErr result (λ e. ComesBack config.now e.0 (F.told flash) (F.told e.1)) }
{
    let geometry = config.geometry();
    let banks = config.banks();
    let Ok(numbers) = config.all_lengths(alloc) else {
        return Err((MakeFault::Memory, flash));
    };
    numbers.len();
    match Cutter::make(alloc, flash, cuts) {
        Ok(cutter) => {
            match Fee::make(
                alloc,
                cutter,
                geometry,
                banks,
                &numbers,
                config.reserve_pages(),
            ) {
                Ok(device) => Ok(device),
                Err((fault, cutter)) => Err((fault_of(fault), cutter.into_inner())),
            }
        }
        Err(failed) => Err((MakeFault::Memory, failed.value)),
    }
}

pub(crate) fn fault_of(fault: AttachFault) -> MakeFault
    ensures { result ≡ fault_of fault }
{
    match fault {
        AttachFault::Failed => MakeFault::Flash,
        AttachFault::InUse => MakeFault::InUse,
        AttachFault::WrongSize { found } => MakeFault::WrongSize { found },
        AttachFault::Memory => MakeFault::Memory,
    }
}
