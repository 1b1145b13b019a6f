// A new shared stack.
ghost use Rattle.std.specs.Prelude.{◌≡◌, ◌<◌, Bool, true, Err, IfOk, IfErr};
ghost use Rattle.nvm_core.specs.block_config.Lengths.{lengths_of};
ghost use Rattle.nvm_core.specs.block_machine.Legal.{IsLegal};
ghost use Rattle.nvm_core.specs.nv_desk_copies.Front.{AreSynchronized};
ghost use Rattle.nvm_core.specs.nvm_laws.declared.turned.FoundAnswer.TheVariants as found;
ghost use Rattle.nvm_core.specs.Stack.{first_stack};
ghost use Rattle.nvm_shared.specs.Opening.{IsFirst, IsMade, IsShared, TellsAtFirst, WhyNot};

use crate::WORD_COUNT;
use crate::locked::{Locked, LockedOf};
use crate::shared::{Shared, SharedOf, StackPass};
use nvm_core::{Config, Driver, FoundAnswer, MemDevice, Stack, SyncCalls};
use std::alloc::Global;
use std::snapshot::Snapshot;
use thiserror::Error;

// A start-up, and an Off behind it.
const START_UP_ENTRIES: u32 = 2;

/// Why a stack isn't shared.
#[derive(Debug, Drop, Error)]
pub enum ShareFault {
    /// The start-up found a fault of the device.
    #[error("the device counted a fault, so its start-up didn't come to its end")]
    Fault,
    /// The start-up's entry, and an Off behind it, don't fit under the cap.
    #[error("the cap of the history has to be at least 2, for the start-up and an Off")]
    NoRoom,
    /// No memory was left: the device is as it was; or it is started, where the lock, which takes the desk behind the start-up,
    /// found none.
    #[error("there is no memory to share the stack")]
    Memory,
}

/// Why, with the device, which is handed back.
#[derive(Drop)]
pub struct NotShared<D> {
    pub fault: ShareFault,
    pub device: D,
}

/// Starts the device up, and shares the stack over it: what all threads use, the marked pass, and the driver. `tells` is picked in
/// proofs: it may be true only where the device tells what it holds.
pub fn make<D: MemDevice, C: SyncCalls + Drop>(
    alloc: Global,
    config: Config,
    device: D,
    copies: C,
    cap: u32,
) -> Result<(Shared, StackPass, Driver<D, C>), NotShared<D>>
    ghost tells: { Bool }
    requires numbers { (D.told device).fixed.numbers ≡ lengths_of config }
    requires synchronized { AreSynchronized config (C.told copies) }
    requires tells { tells ≡ true → TellsAtFirst config cap (D.told device) (D.clock device) }
    ensures made { IfOk result (λ r. IsMade D.told D.clock C.told (first_stack config cap device copies) tells r.0 r.1 r.2) }
    ensures why { IfErr result (λ f. WhyNot (D.told device) cap f.fault (D.told f.device)) }
    ensures no_room { cap < 2 → result ≡ Err (record { fault = ShareFault.NoRoom; device = device }) }
{
    if cap < START_UP_ENTRIES {
        return Err(NotShared {
            fault: ShareFault::NoRoom,
            device,
        });
    }
    let mut stack = match Stack::make(alloc, config, device, copies, cap) {
        Ok(stack) => stack,
        Err(failed) => {
            return Err(NotShared {
                fault: ShareFault::Memory,
                device: failed.value,
            });
        }
    };
    match stack.start() {
        FoundAnswer::Ready => share(alloc, stack),
        FoundAnswer::Failed => Err(NotShared {
            fault: ShareFault::Fault,
            device: stack.into_device(),
        }),
        FoundAnswer::NoRoom | FoundAnswer::Memory => unreachable!(),
    }
}

/// Shares a stack behind its first start-up: what all threads use, the marked pass, and the driver, whose device and copies are the
/// stack's. At want of memory its device is handed back. `tells` is picked in proofs, as in `make`.
#[tactic(auto, using(crate::proofs::WritingLegal::legal_are_written))]
pub fn share<D: MemDevice, C: SyncCalls + Drop>(
    alloc: Global,
    stack: Stack<D, C>,
) -> Result<(Shared, StackPass, Driver<D, C>), NotShared<D>>
    ghost tells: { Bool }
    requires ready { stack.ready ≡ true }
    requires first { IsFirst stack.desk.entries }
    requires legal { tells ≡ true → IsLegal stack.desk.config stack.desk.cap stack.desk.entries }
    ensures shared { IfOk result (λ r. IsShared D.told C.told stack tells r.0 r.1 r.2) }
    ensures fault { IfErr result (λ f. (f.fault ≡ ShareFault.Memory) × (f.device ≡ stack.device)) }
{
    let (front, driver) = stack.into_parts();
    let Ok(value) = Locked::of(alloc, front) else {
        return Err(NotShared {
            fault: ShareFault::Memory,
            device: driver.into_device(),
        });
    };
    let _len = value.len();
    let first = Snapshot::of(&value);
    match turn_gate::make(alloc, value, WORD_COUNT) {
        Ok((gate, pass)) => Ok((SharedOf { gate, first }, pass, driver)),
        Err(_) => Err(NotShared {
            fault: ShareFault::Memory,
            device: driver.into_device(),
        }),
    }
}
