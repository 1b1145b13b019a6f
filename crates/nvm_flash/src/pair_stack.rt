// The stack over a flash and an EEPROM.
ghost use Rattle.std.specs.Prelude.{◌≡◌, ◌≤◌, ℕ, IfErr, IfOk};
ghost use Rattle.nvm_core.specs.block_config.Config.{Configuration};
ghost use Rattle.memif_fee_ea.specs.fee_core.Tells.{told_clock};
ghost use Rattle.memif_fee_ea.specs.fee_core.fee_told.Device.{told_of};
ghost use Rattle.memif_fee_ea.specs.fee_core.fls_model.Told.{Told};
ghost use Rattle.memif_fee_ea.specs.ea_slots.Whole.{clock_in, told_in};
ghost use Rattle.memif_fee_ea.specs.memif_pair.Both.{clock_as, told_as};
ghost use Rattle.nvm_core.specs.StartUps.{StartsKeep, StartsUp};
ghost use Rattle.nvm_core.specs.nv_desk_copies.Front.{AreSynchronized};
ghost use Rattle.nvm_flash.specs.PairMade.{AreBack, AreOrigins, ComeBack, IsPairStack, failed_part};

use crate::back::give_bank_back;
use crate::device::MakeFault;
use crate::pair::{PairCuts, PairDevice, PairFault, give_pair_back, give_slots_back, make_pair};
use crate::stack::start_over;
use memif_fee_ea::ea_slots;
use memif_fee_ea::fee_core::{Flash, MemDevice, MemIf, Origin, SizedFlash};
use nvm_core::{Config, FoundAnswer, Stack, SyncCalls};
use std::alloc::Global;

/// A stack over a flash and an EEPROM, whose power may be cut, with these copies of the application's RAM.
pub type PairStack<F, O, G, P, C> = Stack<PairDevice<F, O, G, P>, C>;

/// The stack of a configuration over a flash and an EEPROM, before its first start-up, with a history of at most `cap` entries. A
/// configuration without a second device is refused.
pub fn make_pair_stack<
    F: SizedFlash,
    O: Origin,
    G: SizedFlash,
    P: ea_slots::Origin,
    C: SyncCalls + Drop,
>(
    alloc: Global,
    config: Config,
    flash: F,
    eeprom: G,
    copies: C,
    cuts: PairCuts,
    cap: u32,
) -> Result<PairStack<F, O, G, P, C>, (PairFault, F, G)>
    requires origins { AreOrigins config (F.told flash) (G.told eeprom) cuts O.making O.entry P.making P.entry }
    requires synchronized { AreSynchronized config (C.told copies) }
    requires room { 2 ≤ cap }
    ensures made { IfOk result (λ s. IsPairStack config cap O.making O.entry P.making P.entry copies s) }
    ensures stopped { IfErr result (λ e. ComeBack config e.0 (F.told flash) (F.told e.1) (G.told eeprom) (G.told e.2)) }
{
    match make_pair(alloc, &config, flash, eeprom, cuts) {
        Ok(device) => match Stack::make(alloc, config, device, copies, cap) {
            Ok(stack) => Ok(stack),
            Err(failed) => {
                let (flash, eeprom) = give_pair_back(failed.value);
                Err((PairFault::Memory, flash, eeprom))
            }
        },
        Err(stopped) => Err(stopped),
    }
}

/// The first start-up of a stack over both. Where it fails, by a fault of one of them, which is told, both come back.
pub fn start_pair_stack<F: Flash, O: Origin, G: Flash, P: ea_slots::Origin, C: SyncCalls + Drop>(
    stack: PairStack<F, O, G, P, C>,
) -> Result<PairStack<F, O, G, P, C>, (PairFault, F, G)>
    requires { IsPairStack stack.desk.config stack.desk.cap O.making O.entry P.making P.entry stack.copies stack }
    ensures started { IfOk result (λ s. StartsUp (told_as told_of told_in) stack s) }
    ensures keeps { IfOk result (λ s. StartsKeep FoundAnswer.Ready stack.desk (told_as told_of told_in stack.device) (clock_as told_clock told_in clock_in stack.device) s.desk (told_as told_of told_in s.device) (clock_as told_clock told_in clock_in s.device)) }
    ensures stopped { IfErr result (λ e. (inner other : Told) (cuts : PairCuts) → AreOrigins stack.desk.config inner other cuts O.making O.entry P.making P.entry → ComeBack stack.desk.config e.0 inner (F.told e.1) other (G.told e.2)) }
{
    match start_over(stack) {
        Ok(stack) => Ok(stack),
        Err(device) => Err(take_failed(device)),
    }
}

// A device whose first start-up failed is taken apart.
fn take_failed<F: Flash, O: Origin, G: Flash, P: ea_slots::Origin>(
    device: PairDevice<F, O, G, P>,
) -> (PairFault, F, G)
    ensures fault { result.0 ≡ failed_part (told_of device.first) }
    ensures back { (c : Configuration) (inner other : Told) (cuts : PairCuts) → AreOrigins c inner other cuts O.making O.entry P.making P.entry → AreBack c inner (F.told result.1) other (G.told result.2) O.entry P.entry device }
{
    let MemIf { first, second } = device.into_pair();
    let fault = failed_part(&first);
    (fault, give_bank_back(first), give_slots_back(second))
}

// The part that failed, by the first device: it counted a fault, or else the second one has.
fn failed_part<D: MemDevice>(first: &D) -> PairFault
    ensures { result ≡ failed_part (D.told first.now) }
{
    if first.faults() == 0 {
        PairFault::OfEeprom(MakeFault::Flash)
    } else {
        PairFault::OfFlash(MakeFault::Flash)
    }
}
