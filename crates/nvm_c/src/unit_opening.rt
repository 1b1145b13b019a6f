// A unit's first start-up.
ghost use Rattle.std.specs.Prelude.{◌≡◌, IfErr, IfOk, ℕ};
ghost use Rattle.nvm.specs.fls_model.Told.{Told};
ghost use Rattle.nvm.specs.block_config.Rules.{IsLegalConfig};
ghost use Rattle.nvm.specs.nvm_flash.Made.{ComesBack, IsMadeStack, IsOrigin};
ghost use Rattle.nvm.specs.nvm_core.StartUps.{StartsUp};
ghost use Rattle.nvm.specs.nvm_flash.fee_told.Device.{told_of};
ghost use Rattle.nvm.specs.nv_desk.Recorder.{endless};
ghost use Rattle.nvm.specs.nvm_flash.promise_run.Promise.{making_of};
ghost use Rattle.nvm_c.specs.Unit.{KnowsImage, Opens};

use crate::sound_image::is_sound;
use crate::unit::{LentStack, LentUnit};
use lent_flash::LentFlash;
use nvm::{Config, ENDLESS, MakeFault, MemDevice, Origin, UnitStack, make_stack, start_stack};
use std::alloc::Global;

/// The unit of a configuration over a flash, of which so many power cuts can be planned, behind its first start-up.
pub fn open<O: Origin>(
    alloc: Global,
    config: Config,
    flash: LentFlash,
    cuts: u32,
) -> Result<LentUnit<O>, (MakeFault, LentFlash)>
    requires { IsOrigin config flash cuts O.making O.entry }
    ensures opened { IfOk result (λ s. Opens config O.making O.entry s) }
    ensures stopped { IfErr result (λ e. ComesBack config e.0 flash e.1) }
{
    let _geometry = config.geometry();
    match make_stack::<LentFlash, O>(alloc, config, flash, cuts, ENDLESS) {
        Ok(stack) => begin(stack, cuts),
        Err(stopped) => Err(stopped),
    }
}

// Whether the flash of a stack that was made held a sound image.
fn holds_sound<O: Origin>(stack: &LentStack<O>) -> bool
    requires made { IsMadeStack stack.now.desk.config stack.now.desk.cap O.making O.entry stack.now }
    requires legal { IsLegalConfig stack.now.desk.config }
    requires made_for { O.making ≡ making_of stack.now.desk.config }
    ensures { KnowsImage result O.making O.entry }
{
    let config = stack.config();
    let flash = stack.device().flash().inner();
    is_sound(flash, config.geometry(), config.banks())
}

// The first start-up of a stack that was made.
fn begin<O: Origin>(stack: LentStack<O>, cuts: u32) -> Result<LentUnit<O>, (MakeFault, LentFlash)>
    requires made { IsMadeStack stack.desk.config stack.desk.cap O.making O.entry stack }
    requires most { stack.desk.cap ≡ endless }
    requires legal { IsLegalConfig stack.desk.config }
    requires origin { (inner : Told) × IsOrigin stack.desk.config inner cuts O.making O.entry }
    ensures started { IfOk result (λ s. StartsUp told_of stack s) }
    ensures stopped { IfErr result (λ e. (inner : Told) (cuts : ℕ) → IsOrigin stack.desk.config inner cuts O.making O.entry → ComesBack stack.desk.config e.0 inner e.1) }
{
    let sound = holds_sound(&stack);
    stack.device().status();
    match start_stack(stack) {
        Ok(stack) => {
            let behind = stack.device();
            let _status = behind.status();
            let unit = UnitStack::over(stack, cuts);
            Ok(LentUnit::over(unit, cuts, sound))
        }
        Err(stopped) => Err(stopped),
    }
}
