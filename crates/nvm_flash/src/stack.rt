// The stack.
ghost use Rattle.std.specs.Prelude.{◌≡◌, ◌≤◌, ℕ, IfErr, IfOk, None};
ghost use Rattle.memif_fee_ea.specs.fee_core.fee_told.Device.{told_of};
ghost use Rattle.memif_fee_ea.specs.fee_core.Tells.{told_clock};
ghost use Rattle.memif_fee_ea.specs.fee_core.fls_model.Told.{Told};
ghost use Rattle.nvm_core.specs.StartUps.{StartsKeep, StartsUp};
ghost use Rattle.nvm_core.specs.nv_desk_copies.Front.{AreSynchronized};
ghost use Rattle.nvm_core.specs.nvm_found.Found.{FailsToFind};
ghost use Rattle.nvm_flash.specs.Made.{ComesBack, IsMadeStack, IsMadeWith, IsOrigin, IsUnstarted};

use crate::back::give_back;
use crate::device::{MakeFault, make_device};
use fls_devices::Cutter;
use memif_fee_ea::fee_core::{Fee, Flash, Origin};
use nvm_core::{Config, FoundAnswer, MemDevice, PlainSync, Stack, SyncCalls};
use std::alloc::Global;

/// A stack over a flash whose power may be cut.
pub type FlashStack<F, O> = Stack<Fee<Cutter<F>, O>, PlainSync>;

/// The stack of a configuration over a flash, before its first start-up, with a history of at most `cap` entries, and with the copies
/// that a player has at first. A configuration with a second device is refused.
pub fn make_stack<F: Flash, O: Origin>(
    alloc: Global,
    config: Config,
    flash: F,
    cuts: u32,
    cap: u32,
) -> Result<FlashStack<F, O>, (MakeFault, F)>
    requires origin { IsOrigin config (F.told flash) cuts O.making O.entry }
    requires room { 2 ≤ cap }
    ensures made { IfOk result (λ s. IsMadeStack config cap O.making O.entry s) }
    ensures stopped { IfErr result (λ e. ComesBack config e.0 (F.told flash) (F.told e.1)) }
{
    match config.second() {
        Some(_) => Err((MakeFault::NoSecond, flash)),
        None => make_plain(alloc, config, flash, cuts, cap),
    }
}

// So for one without a second device.
fn make_plain<F: Flash, O: Origin>(
    alloc: Global,
    config: Config,
    flash: F,
    cuts: u32,
    cap: u32,
) -> Result<FlashStack<F, O>, (MakeFault, F)>
    requires origin { IsOrigin config (F.told flash) cuts O.making O.entry }
    requires one_device { config.eeprom ≡ None }
    requires room { 2 ≤ cap }
    ensures made { IfOk result (λ s. IsMadeStack config cap O.making O.entry s) }
    ensures stopped { IfErr result (λ e. ComesBack config e.0 (F.told flash) (F.told e.1)) }
{
    let Ok(copies) = PlainSync::make(alloc, &config) else {
        return Err((MakeFault::Memory, flash));
    };
    let _blocks = config.blocks();
    make_stack_with::<F, O, PlainSync>(alloc, config, flash, copies, cuts, cap)
}

/// The stack of a configuration over a flash, before its first start-up, with a history of at most `cap` entries, and with these copies
/// of the application's RAM.
pub fn make_stack_with<F: Flash, O: Origin, C: SyncCalls + Drop>(
    alloc: Global,
    config: Config,
    flash: F,
    copies: C,
    cuts: u32,
    cap: u32,
) -> Result<Stack<Fee<Cutter<F>, O>, C>, (MakeFault, F)>
    requires origin { IsOrigin config (F.told flash) cuts O.making O.entry }
    requires synchronized { AreSynchronized config (C.told copies) }
    requires room { 2 ≤ cap }
    ensures made { IfOk result (λ s. IsMadeWith config cap O.making O.entry copies s) }
    ensures stopped { IfErr result (λ e. ComesBack config e.0 (F.told flash) (F.told e.1)) }
{
    match make_device(alloc, &config, flash, cuts) {
        Ok(device) => match Stack::make(alloc, config, device, copies, cap) {
            Ok(stack) => Ok(stack),
            Err(failed) => Err((MakeFault::Memory, give_back(failed.value))),
        },
        Err(stopped) => Err(stopped),
    }
}

/// The first start-up of a stack. Where it fails, by a fault, the flash comes back.
pub fn start_stack<F: Flash, O: Origin>(
    stack: FlashStack<F, O>,
) -> Result<FlashStack<F, O>, (MakeFault, F)>
    requires { IsMadeStack stack.desk.config stack.desk.cap O.making O.entry stack }
    ensures started { IfOk result (λ s. StartsUp told_of stack s) }
    ensures keeps { IfOk result (λ s. StartsKeep FoundAnswer.Ready stack.desk (told_of stack.device) (told_clock stack.device) s.desk (told_of s.device) (told_clock s.device)) }
    ensures stopped { IfErr result (λ e. (inner : Told) (cuts : ℕ) → IsOrigin stack.desk.config inner cuts O.making O.entry → ComesBack stack.desk.config e.0 inner (F.told e.1)) }
{
    start_stack_with::<F, O, PlainSync>(stack)
}

/// The first start-up of a stack, whatever its copies are.
pub fn start_stack_with<F: Flash, O: Origin, C: SyncCalls + Drop>(
    stack: Stack<Fee<Cutter<F>, O>, C>,
) -> Result<Stack<Fee<Cutter<F>, O>, C>, (MakeFault, F)>
    requires { IsMadeWith stack.desk.config stack.desk.cap O.making O.entry stack.copies stack }
    ensures started { IfOk result (λ s. StartsUp told_of stack s) }
    ensures keeps { IfOk result (λ s. StartsKeep FoundAnswer.Ready stack.desk (told_of stack.device) (told_clock stack.device) s.desk (told_of s.device) (told_clock s.device)) }
    ensures stopped { IfErr result (λ e. (inner : Told) (cuts : ℕ) → IsOrigin stack.desk.config inner cuts O.making O.entry → ComesBack stack.desk.config e.0 inner (F.told e.1)) }
{
    match start_over(stack) {
        Ok(stack) => Ok(stack),
        Err(device) => Err((MakeFault::Flash, give_back(device))),
    }
}

/// The first start-up of a stack over any device. Where it fails, by a fault, the device comes back.
pub(crate) fn start_over<D: MemDevice, C: SyncCalls + Drop>(
    stack: Stack<D, C>,
) -> Result<Stack<D, C>, D>
    requires { IsUnstarted stack }
    ensures started { IfOk result (λ s. StartsUp D.told stack s) }
    ensures keeps { IfOk result (λ s. StartsKeep FoundAnswer.Ready stack.desk (D.told stack.device) (D.clock stack.device) s.desk (D.told s.device) (D.clock s.device)) }
    ensures failed { IfErr result (λ d. FailsToFind (D.told stack.device) (D.told d)) }
{
    let mut stack = stack;
    match stack.start() {
        FoundAnswer::Ready => Ok(stack),
        FoundAnswer::Failed | FoundAnswer::NoRoom | FoundAnswer::Memory => Err(stack.into_device()),
    }
}
