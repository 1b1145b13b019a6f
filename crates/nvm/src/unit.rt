// A unit over a flash.
ghost use Rattle.std.specs.Prelude.{◌≡◌, ◌≤◌, ℕ, true, List, IfErr, IfOk, OnErr};
ghost use Rattle.nvm_flash.specs.block_config.Rules.{IsLegalConfig};
ghost use Rattle.nvm_flash.specs.nv_base.declared.entry.Entry.{Entry};
ghost use Rattle.nvm_flash.specs.nv_desk.Recorder.{endless};
ghost use Rattle.nvm_flash.specs.fls_devices.Cutter.{cutting, told_cutting};
ghost use Rattle.nvm_flash.specs.fls_model.Told.{Told};
ghost use Rattle.nvm_flash.specs.Made.{ComesBack, IsMadeStack, IsOrigin};
ghost use Rattle.nvm.specs.Unit.{HasRun, Stays, takes_of};

use crate::unit_stack::UnitStack;
use nvm_flash::{
    Config, ENDLESS, Flash, FlashStack, MakeFault, MemDevice, Origin, make_stack, start_stack,
};
use std::alloc::Global;
use std::marker::Brand;

/// What a unit does between switching on and switching off.
pub trait Unit {
    /// What one run makes of it: the unit before it and behind it, how many power cuts could be planned at first, and the entries of
    /// its stack.
    ghost ran: { Self → Self → ℕ → List Entry → Type 0 };

    /// Runs over a stack that is up: its first start-up stands. It has room for as many entries as can be counted, and keeps the last one.
    fn run<F: Flash, O: Origin>(&mut self, alloc: Global, stack: &mut UnitStack<F, O>)
        requires ready { stack.old.ready ≡ true }
        requires most { stack.old.desk.cap ≡ endless }
        ensures ran { ran self.old self.new (takes_of stack.old) stack.new.desk.entries }
        ensures stays { Stays stack.old stack.new };
}

/// Switches a unit on and off again: the stack of its configuration over a flash, of which so many power cuts can be planned, 0 for
/// a real one; a start-up; what the unit does; and the flash comes back. At Ok the unit ran, and the flash is the one that was handed
/// in, with what the entries of the run say; and its calls kept what the steps of a script keep. At Err it did nothing.
pub fn run_unit<F: Flash, U: Unit>(
    alloc: Global,
    config: Config,
    flash: F,
    cuts: u32,
    unit: &mut U,
) -> Result<F, (MakeFault, F)>
    ensures ran { IfOk result (λ f. HasRun config (F.told flash) (F.told f) (U.ran unit.old unit.new cuts)) }
    ensures stopped { IfErr result (λ e. ComesBack config e.0 (F.told flash) (F.told e.1)) }
    ensures untouched { OnErr result (unit.new ≡ unit.old) }
{
    run_unit_with_origin::<F, U, Brand>(alloc, config, flash, cuts, unit)
}

// So over a device of this origin.
fn run_unit_with_origin<F: Flash, U: Unit, O: Origin>(
    alloc: Global,
    config: Config,
    flash: F,
    cuts: u32,
    unit: &mut U,
) -> Result<F, (MakeFault, F)>
    requires { IsOrigin config (F.told flash) cuts O.making O.entry }
    ensures ran { IfOk result (λ f. HasRun config (F.told flash) (F.told f) (U.ran unit.old unit.new cuts)) }
    ensures stopped { IfErr result (λ e. ComesBack config e.0 (F.told flash) (F.told e.1)) }
    ensures untouched { OnErr result (unit.new ≡ unit.old) }
{
    let _geometry = config.geometry();
    match make_stack::<F, O>(alloc, config, flash, cuts, ENDLESS) {
        Ok(made) => match switch_on(made, cuts) {
            Ok(started) => Ok(switch_off(alloc, started, unit)),
            Err(stopped) => Err(stopped),
        },
        Err(stopped) => Err(stopped),
    }
}

// The first start-up of a stack that was made, of whose flash so many power cuts can be planned.
fn switch_on<F: Flash, O: Origin>(
    stack: FlashStack<F, O>,
    cuts: u32,
) -> Result<UnitStack<F, O>, (MakeFault, F)>
    requires made { IsMadeStack stack.desk.config stack.desk.cap O.making O.entry stack }
    requires legal { IsLegalConfig stack.desk.config }
    requires origin { (inner : Told) × IsOrigin stack.desk.config inner cuts O.making O.entry }
    ensures ready { IfOk result (λ s. s.ready ≡ true) }
    ensures plans { IfOk result (λ s. takes_of s ≡ cuts) }
    ensures stays { IfOk result (λ s. Stays stack s) }
    ensures stopped { IfErr result (λ e. (inner : Told) (n : ℕ) → IsOrigin stack.desk.config inner n O.making O.entry → ComesBack stack.desk.config e.0 inner (F.told e.1)) }
{
    stack.device().status();
    match start_stack(stack) {
        Ok(stack) => {
            let behind = stack.device();
            let _status = behind.status();
            Ok(UnitStack::over(stack, cuts))
        }
        Err(stopped) => Err(stopped),
    }
}

// Lets the unit run, and takes the stack apart.
fn switch_off<F: Flash, U: Unit, O: Origin>(
    alloc: Global,
    stack: UnitStack<F, O>,
    unit: &mut U,
) -> F
    requires ready { stack.ready ≡ true }
    requires most { stack.desk.cap ≡ endless }
    ensures { (inner : Told) (cuts : ℕ) → O.entry ≡ told_cutting (cutting inner cuts) → HasRun stack.desk.config inner (F.told result) (U.ran unit.old unit.new (takes_of stack)) }
{
    let mut stack = stack;
    unit.run(alloc, &mut stack);
    stack.into_flash()
}
