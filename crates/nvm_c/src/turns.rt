// A unit is opened, makes turns, meets power cuts, and is closed.
ghost use Rattle.std.specs.Prelude.{◌≡◌, ◌≢◌, None, IsSome, IsSomeAnd, IfSome};
ghost use Rattle.nvm_c.specs.Unit.{ClosesWith};
ghost use Rattle.nvm_c.specs.Exports.{Goes, IsNotOpened, IsOpened, IsOpenedOver, IsPlanned, IsRestarted, IsStopped, IsTurned, fault_code, found_code, turned_code};

use crate::handle::{Handle, work_on};
use crate::work::{Outcome, Task, UnitWork};
use lent_flash::{Lent, LentFlash};
use nvm::{Config, ConfigFault, FoundAnswer, MakeFault, Turned, read};
use std::alloc::Global;

/// Opens a unit over memory that C lends until it closes it: the stack of a configuration, of whose flash so many power cuts can
/// be planned, behind its first start-up. 0: it is open. Else the memory comes back at once, in `back`. 1: the text is no
/// configuration, and the bytes are as they were. 2: the memory hasn't the flash's size, and they are as they were. 3: the flash
/// failed, as this one never does. 4: there is no memory. 5: the configuration has a second device, and the bytes are as they were.
#[unsafe(no_mangle)]
pub extern "C" fn nvm_open(
    alloc: Global,
    handle: &mut Handle,
    text: &[u8],
    flash: Lent,
    cuts: u32,
    back: &mut Lent,
) -> u8
    requires closed { handle.old.kept ≡ None }
    requires lent { IsSome flash.bytes }
    ensures opened { result ≡ 0 → IsSomeAnd handle.new.kept (λ k. IfSome flash.bytes (λ bytes. IsOpened text.now bytes cuts k)) }
    ensures failed { result ≢ 0 → handle.new.kept ≡ None }
    ensures back { result ≢ 0 → IsSome back.new.bytes }
    ensures stopped { result ≢ 0 → IfSome flash.bytes (λ bytes. IsStopped text.now bytes result back.new.bytes) }
{
    match read(alloc, text) {
        Ok(config) => open_over(alloc, handle, config, LentFlash::over(flash), cuts, back),
        Err(ConfigFault::Broken { .. }) => {
            *back = flash;
            1
        }
        Err(ConfigFault::Memory) => {
            *back = flash;
            4
        }
    }
}

fn fault_code(fault: MakeFault) -> u8
    ensures { result ≡ fault_code fault }
{
    match fault {
        MakeFault::WrongSize { .. } => 2,
        MakeFault::Flash | MakeFault::InUse => 3,
        MakeFault::Memory => 4,
        MakeFault::NoSecond => 5,
    }
}

// Opens a unit over a flash.
fn open_over(
    alloc: Global,
    handle: &mut Handle,
    config: Config,
    flash: LentFlash,
    cuts: u32,
    back: &mut Lent,
) -> u8
    requires closed { handle.old.kept ≡ None }
    ensures opened { result ≡ 0 → IsSomeAnd handle.new.kept (λ k. IsOpenedOver config flash cuts k) }
    ensures failed { result ≢ 0 → handle.new.kept ≡ None }
    ensures back { result ≢ 0 → IsSome back.new.bytes }
    ensures stopped { result ≢ 0 → IsNotOpened config flash result back.new.bytes }
{
    let work = UnitWork::Open {
        config,
        flash,
        cuts,
    };
    match work_on(alloc, handle, work) {
        Outcome::Opened => 0,
        Outcome::NotOpened { fault, lent } => {
            *back = lent;
            fault_code(fault)
        }
        _other => 4,
    }
}

fn turned_code(turned: Turned) -> u8
    ensures { result ≡ turned_code turned }
{
    match turned {
        Turned::Idle => 0,
        Turned::Worked => 1,
        Turned::Picked => 2,
        Turned::Posted => 3,
        Turned::Off => 4,
    }
}

/// One turn of the main function. 0: nothing was to be done. 1: a step of a job or of a bank switch was made. 2: a job was taken in
/// hand. 3: a job was posted. 4: the power is off. 5: the last start-up failed.
#[unsafe(no_mangle)]
pub extern "C" fn nvm_turn(alloc: Global, handle: &mut Handle) -> u8
    requires open { IsSome handle.old.kept }
    ensures turned { Goes handle.old.kept handle.new.kept (IsTurned result) }
{
    let task = Task::Turn;
    match work_on(alloc, handle, UnitWork::Serve { task }) {
        Outcome::Turned { turned } => turned_code(turned),
        _other => 5,
    }
}

/// Plans a power cut at the nth changing operation of the flash from now, with so many bytes of it done. 0: it is planned. 5: the last
/// start-up failed. 6: none is planned, since as many were as the unit was opened with, or `nth` is 0.
#[unsafe(no_mangle)]
pub extern "C" fn nvm_cut(alloc: Global, handle: &mut Handle, nth: u32, keep: u32) -> u8
    requires open { IsSome handle.old.kept }
    ensures planned { Goes handle.old.kept handle.new.kept (IsPlanned nth keep result) }
{
    let task = Task::Cut { nth, keep };
    match work_on(alloc, handle, UnitWork::Serve { task }) {
        Outcome::Planned => 0,
        Outcome::NotPlanned => 6,
        _other => 5,
    }
}

fn found_code(found: FoundAnswer) -> u8
    ensures { result ≡ found_code found }
{
    match found {
        FoundAnswer::Ready => 0,
        FoundAnswer::Failed => 1,
        FoundAnswer::NoRoom => 3,
        FoundAnswer::Memory => 4,
    }
}

/// A further start-up, as behind a power cut: what is pending is lost. 0: it stands. 1: it failed. 3: the history is full. It takes
/// no memory.
#[unsafe(no_mangle)]
pub extern "C" fn nvm_restart(alloc: Global, handle: &mut Handle) -> u8
    requires open { IsSome handle.old.kept }
    ensures restarted { Goes handle.old.kept handle.new.kept (IsRestarted result) }
{
    let task = Task::Restart;
    match work_on(alloc, handle, UnitWork::Serve { task }) {
        Outcome::Found { found } => found_code(found),
        _other => 4,
    }
}

/// Closes a unit, and gives the memory back with the bytes of its flash.
#[unsafe(no_mangle)]
pub extern "C" fn nvm_close(alloc: Global, handle: &mut Handle, back: &mut Lent)
    requires open { IsSome handle.old.kept }
    ensures closed { handle.new.kept ≡ None }
    ensures given_back { IfSome handle.old.kept (λ k. IsSomeAnd back.new.bytes (ClosesWith k.flash k.state)) }
{
    match work_on(alloc, handle, UnitWork::Close) {
        Outcome::Closed { lent } => *back = lent,
        _other => {}
    }
}
