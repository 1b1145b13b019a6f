// A flash whose size is looked at before it is attached.
ghost use Rattle.memif_fee_ea.specs.fee_core.nv_base.Geometry.{IsLegal};
ghost use Rattle.nvm_flash.specs.Sized.{IsLooked, AreLooked};

use crate::device::{MakeFault, fault_of};
use crate::pair::PairFault;
use memif_fee_ea::fee_core::{Geometry, SizedFlash};

// Why a flash can't be attached at a geometry, by its size.
fn look_at<F: SizedFlash>(flash: &mut F, geometry: Geometry) -> Option<MakeFault>
    requires { IsLegal geometry }
    ensures { IsLooked geometry (F.told flash.old) result (F.told flash.new) }
{
    match flash.size(geometry) {
        Ok(found) if found != 0 && found != u64::from(geometry.size()) => {
            Some(MakeFault::WrongSize { found })
        }
        Ok(_) => None,
        Err(fault) => Some(fault_of(fault)),
    }
}

/// Why a flash, or an EEPROM, can't be attached at its geometry: both sizes are looked at before either is attached.
pub(crate) fn look_at_both<F: SizedFlash, G: SizedFlash>(
    flash: &mut F,
    eeprom: &mut G,
    geometry: Geometry,
    shape: Geometry,
) -> Option<PairFault>
    requires first { IsLegal geometry }
    requires second { IsLegal shape }
    ensures { AreLooked geometry shape result (F.told flash.old) (F.told flash.new) (G.told eeprom.old) (G.told eeprom.new) }
{
    if let Some(fault) = look_at(flash, geometry) {
        return Some(PairFault::OfFlash(fault));
    }
    match look_at(eeprom, shape) {
        Some(fault) => Some(PairFault::OfEeprom(fault)),
        None => None,
    }
}
