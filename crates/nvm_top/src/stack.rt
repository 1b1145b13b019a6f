// The stack that a command runs: over the banks of a flash whose power may be cut, with the application's copies in memory.
ghost use Rattle.std.specs.Prelude.{◌≡◌, ℕ, IfErr, IfOk, None};
ghost use Rattle.nvm_flash.specs.block_config.Config.{Configuration};
ghost use Rattle.nvm_flash.specs.fee_told.Device.{told_of};
ghost use Rattle.nvm_flash.specs.fee_core.Tells.{told_clock};
ghost use Rattle.nvm_flash.specs.fee_laws.Made.{part_at};
ghost use Rattle.nvm_flash.specs.block_config.Rules.{IsLegalConfig};
ghost use Rattle.nvm_flash.specs.Made.{ComesBack, IsMadeStack, IsOrigin};
ghost use Rattle.nvm_flash.specs.nvm_core.StartUps.{StartsUp};
ghost use Rattle.nvm_flash.specs.nvm_laws.Keeps.{StackKeepsAsTold};
ghost use Rattle.nvm_flash.specs.fls_model.Told.{Told};
ghost use Rattle.nvm_flash.specs.nv_base.Geometry.{IsLegal, size_of};
ghost use Rattle.nvm_top.specs.Stack.{stop_of_make};
ghost use Rattle.nvm_flash.specs.Made.{one_part};

use crate::flashes::Flashes;
use nvm_flash::{
    CAP, Config, Cutter, Fee, Flash, FlashStack, Geometry, MakeFault, MemDevice, Origin, give_back,
    make_stack, start_stack,
};
use nvm_lines::Stop;
use std::alloc::Global;
use std::marker::PhantomData;

/// One flash, over which a device of this origin is made.
#[derive(Drop)]
pub struct OneFlash<F, O> {
    pub flash: F,
    pub origin: PhantomData<O>,
}

impl<F: Flash, O: Origin> Flashes for OneFlash<F, O> {
    ghost use Rattle.nvm_flash.specs.fee_told.Device.{told_of, clock_of};
    ghost use Rattle.nvm_flash.specs.fee_laws.Made.{part_at};
    ghost use Rattle.nvm_flash.specs.Made.{IsBack, IsOrigin};
    ghost use Rattle.nvm_top.specs.Flashes.{one_flash};
    ghost use Rattle.nvm_top.specs.Stack.{StopsAtStart};
    ghost use Rattle.nvm_flash.specs.Made.{one_part};

    type Device = Fee<Cutter<F>, O>;

    ghost told = { λ s. one_flash (F.told s.flash) };

    ghost before = { one_part (part_at O.entry) };

    ghost is_origin = { λ c entry cuts. IsOrigin c entry.flash cuts O.making O.entry };

    ghost stops = { λ c entry exit why. StopsAtStart c entry.flash exit.flash why };

    ghost is_back = { λ c entry exit d. IsBack c entry.flash exit.flash (part_at O.entry) (told_of d) (clock_of d) };

    fn start(
        self,
        alloc: Global,
        config: Config,
        cuts: u32,
    ) -> Result<FlashStack<F, O>, (Stop, OneFlash<F, O>)> {
        let OneFlash { flash, origin } = self;
        let geometry = config.geometry();
        match make_stack(alloc, config, flash, cuts, CAP) {
            Ok(stack) => match begin(stack) {
                Ok(stack) => {
                    let device = stack.device();
                    let _status = device.status();
                    Ok(stack)
                }
                Err((fault, flash)) => {
                    Err((stop_of_make(fault, geometry), OneFlash { flash, origin }))
                }
            },
            Err((fault, flash)) => Err((stop_of_make(fault, geometry), OneFlash { flash, origin })),
        }
    }

    fn back(device: Fee<Cutter<F>, O>) -> OneFlash<F, O> {
        OneFlash {
            flash: give_back(device),
            origin: PhantomData,
        }
    }
}

// The first start-up of a stack that was made.
fn begin<F: Flash, O: Origin>(stack: FlashStack<F, O>) -> Result<FlashStack<F, O>, (MakeFault, F)>
    requires { IsMadeStack stack.desk.config stack.desk.cap O.making O.entry stack }
    ensures started { IfOk result (λ s. StartsUp told_of stack s) }
    ensures kept { IfOk result (λ s. (c : Configuration) (inner : Told) (cuts : ℕ) → stack.desk.config ≡ c → IsLegalConfig c → IsOrigin c inner cuts O.making O.entry
        → StackKeepsAsTold (one_part (part_at O.entry)) s.desk None (told_of s.device) (told_clock s.device)) }
    ensures stopped { IfErr result (λ e. (inner : Told) (cuts : ℕ) → IsOrigin stack.desk.config inner cuts O.making O.entry → ComesBack stack.desk.config e.0 inner (F.told e.1)) }
{
    stack.device().status();
    start_stack(stack)
}

fn stop_of_make(fault: MakeFault, geometry: Geometry) -> Stop
    requires { IsLegal geometry }
    ensures { result ≡ stop_of_make fault (size_of geometry) }
{
    match fault {
        MakeFault::WrongSize { found } => Stop::WrongSize {
            found,
            need: u64::from(geometry.sector) * u64::from(geometry.sectors),
        },
        MakeFault::Flash => Stop::FlashFault,
        MakeFault::InUse => Stop::InUse,
        MakeFault::NoSecond => Stop::NoSecond,
        MakeFault::Memory => Stop::Memory,
    }
}
