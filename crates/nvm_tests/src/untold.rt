// A shared stack of whose device it isn't said that it tells what it holds.
ghost use Rattle.std.specs.Prelude.{◌≡◌, false, IfOk};
ghost use Rattle.nvm_laws.specs.block_config.Lengths.{lengths_of};
ghost use Rattle.nvm_laws.specs.nv_desk_copies.Front.{AreSynchronized};
ghost use Rattle.nvm_shared.specs.Opening.{IsMade};
ghost use Rattle.nvm_flash.specs.nvm_core.Stack.{first_stack};

use nvm_laws::memif::MemDevice;
use nvm_laws::{Config, SyncCalls};
use nvm_shared::{Driver, NotShared, Shared, StackPass, make};
use std::alloc::Global;

pub(crate) fn make_untold<D: MemDevice, C: SyncCalls + Drop>(
    alloc: Global,
    config: Config,
    device: D,
    copies: C,
) -> Result<(Shared, StackPass, Driver<D, C>), NotShared<D>>
    requires numbers { (D.told device).fixed.numbers ≡ lengths_of config }
    requires synchronized { AreSynchronized config (C.told copies) }
    ensures { IfOk result (λ r. IsMade D.told D.clock C.told (first_stack config 100 device copies) false r.0 r.1 r.2) }
{
    make(alloc, config, device, copies, 100)
}
