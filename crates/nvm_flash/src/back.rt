// The device is taken apart.
ghost use Rattle.std.specs.Prelude.{◌≡◌, ℕ};
ghost use Rattle.nvm_core.specs.block_config.Config.{Configuration};
ghost use Rattle.memif_fee_ea.specs.fee_core.fee_told.Device.{told_of, clock_of};
ghost use Rattle.memif_fee_ea.specs.fee_core.fee_laws.Made.{part_at};
ghost use Rattle.memif_fee_ea.specs.fee_core.fls_model.Told.{Told};
ghost use Rattle.memif_fee_ea.specs.fee_core.promise_device.Making.{Making};
ghost use Rattle.fls_devices.specs.Cutter.{cutting, told_cutting};
ghost use Rattle.nvm_flash.specs.Made.{IsBack, IsBackFrom, IsOrigin};

use fls_devices::Cutter;
use memif_fee_ea::fee_core::{Fee, Flash, Origin};

/// Gives the flash of a device back.
pub fn give_back<F: Flash, O: Origin>(device: Fee<Cutter<F>, O>) -> F
    ensures { (c : Configuration) (inner : Told) (cuts : ℕ) → IsOrigin c inner cuts O.making O.entry → IsBack c inner (F.told result) (part_at O.entry) (told_of device) (clock_of device) }
{
    give_bank_back(device)
}

/// That of a device over banks, whatever configuration it was made for.
pub(crate) fn give_bank_back<F: Flash, O: Origin>(device: Fee<Cutter<F>, O>) -> F
    ensures { (m : Making) (inner : Told) (cuts : ℕ) → O.making ≡ m → O.entry ≡ told_cutting (cutting inner cuts) → IsBackFrom m inner (F.told result) (part_at O.entry) (told_of device) (clock_of device) }
{
    device.into_flash().into_inner()
}
