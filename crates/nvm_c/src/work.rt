// What is done with the unit of a handle, whatever it was made of.
ghost use Rattle.std.specs.Prelude.{◌≡◌, None, IfErr, IfOk};
ghost use Rattle.nvm_c.specs.declared.work.Task.TheVariants as Task;
ghost use Rattle.nvm_c.specs.declared.work.UnitWork.TheVariants as UnitWork;
ghost use Rattle.nvm_c.specs.Work.{CanDo, CanServe, Copies, Does, Hands, Serves};

use crate::room::Room;
use crate::standing::LineFault;
use crate::texts::BlockFacts;
use crate::unit::LentUnit;
use crate::unit_opening::open;
use lent_flash::{Lent, LentFlash};
use nvm::{
    AskFault, Bytes, Config, FoundAnswer, MakeFault, Origin, Reply, ReqResult, RequestKind, Turned,
};
use std::alloc::Global;

/// What is asked of a unit.
#[derive(Drop)]
pub enum UnitWork<'a> {
    Open {
        config: Config,
        flash: LentFlash,
        cuts: u32,
    },
    Close,
    Serve {
        task: Task<'a>,
    },
}

/// What is asked of a unit that stays.
#[derive(Drop)]
pub enum Task<'a> {
    /// A request whose content is lent: no bytes where it brings none.
    Ask {
        kind: RequestKind,
        content: &'a [u8],
    },
    Turn,
    Cut {
        nth: u32,
        keep: u32,
    },
    Restart,
    Status {
        block: u16,
    },
    Valid {
        block: u16,
    },
    /// What the configuration says of a block.
    Facts {
        block: u16,
    },
    /// What a block's RAM holds is copied to the caller.
    Ram {
        block: u16,
    },
    /// What the last entry gave is.
    Given,
    Line,
    Entries,
}

/// What came of it. `Down`: the last start-up failed, and nothing was done. `Unsound`: from an image that wasn't sound an operation was
/// made, so that it isn't told what the last start-up found.
#[derive(Drop)]
pub enum Outcome {
    Opened,
    NotOpened { fault: MakeFault, lent: Lent },
    Down,
    Unsound,
    NoMemory,
    Asked { answer: Result<Reply, AskFault> },
    Turned { turned: Turned },
    Planned,
    NotPlanned,
    Found { found: FoundAnswer },
    StatusIs { result: ReqResult },
    Is { valid: bool },
    FactsAre { facts: Option<BlockFacts> },
    Copied { size: usize },
    Nothing,
    Line { text: Option<Bytes> },
    Count { entries: u32 },
    Closed { lent: Lent },
}

/// The room of a unit, or none.
pub type UnitRoom<O> = Room<LentUnit<O>>;

/// Serves it. What is copied to the caller goes to the front of `into`.
#[inline(always)]
pub fn serve<O: Origin>(
    alloc: Global,
    room: UnitRoom<O>,
    work: UnitWork<'_>,
    into: &mut [u8],
) -> (UnitRoom<O>, Outcome)
    requires { CanServe O.making O.entry work room.value }
    ensures { Serves O.making O.entry work.entry result.1 room.value result.0.value × Hands work.entry result.1 room.value into.old into.new }
{
    match work {
        UnitWork::Open {
            config,
            flash,
            cuts,
        } => open_room(alloc, config, flash, cuts),
        UnitWork::Close => close_room(alloc, room),
        UnitWork::Serve { task } => {
            let mut unit = room.into_box(alloc);
            let outcome = do_task(alloc, &mut unit, task, into);
            (Room::of(unit), outcome)
        }
    }
}

// Closes the unit of a room. It stands apart, as the opening does: a call pays at entry for all that its function may hold.
#[inline(never)]
fn close_room<O: Origin>(alloc: Global, room: UnitRoom<O>) -> (UnitRoom<O>, Outcome)
    requires { CanServe O.making O.entry UnitWork.Close room.value }
    ensures { Serves O.making O.entry UnitWork.Close result.1 room.value result.0.value }
{
    let unit = Box::into_inner(room.into_box(alloc));
    (Room::empty(), Outcome::Closed { lent: unit.close() })
}

// Opens a unit, and puts it into a room.
#[inline(never)]
fn open_room<O: Origin>(
    alloc: Global,
    config: Config,
    flash: LentFlash,
    cuts: u32,
) -> (UnitRoom<O>, Outcome)
    requires { CanServe O.making O.entry (UnitWork.Open config flash cuts) None }
    ensures { Serves O.making O.entry (UnitWork.Open config flash cuts) result.1 None result.0.value }
{
    match open::<O>(alloc, config, flash, cuts) {
        Ok(unit) => match boxed(alloc, unit) {
            Ok(unit) => (Room::of(unit), Outcome::Opened),
            Err(unit) => (
                Room::empty(),
                Outcome::NotOpened {
                    fault: MakeFault::Memory,
                    lent: unit.close(),
                },
            ),
        },
        Err((fault, flash)) => (
            Room::empty(),
            Outcome::NotOpened {
                fault,
                lent: flash.into_lent(),
            },
        ),
    }
}

// A unit on the heap. At Err it is handed back.
fn boxed<O: Origin>(alloc: Global, unit: LentUnit<O>) -> Result<Box<LentUnit<O>>, LentUnit<O>>
    ensures ok { IfOk result (λ boxed. boxed.value ≡ unit) }
    ensures err { IfErr result (λ same. same ≡ unit) }
{
    match Box::new(alloc, unit) {
        Ok(boxed) => Ok(boxed),
        Err(failed) => Err(failed.value),
    }
}

// Does a task of a unit. While its last start-up stands it takes requests, makes turns, and plans cuts.
#[inline(always)]
fn do_task<O: Origin>(
    alloc: Global,
    unit: &mut LentUnit<O>,
    task: Task<'_>,
    into: &mut [u8],
) -> Outcome
    requires { CanDo task unit.old }
    ensures does { Does task.entry result unit.old unit.new }
    ensures copies { Copies task.entry result unit.old into.old into.new }
{
    match task {
        Task::Restart => restart(alloc, unit),
        Task::Status { block } => Outcome::StatusIs {
            result: unit.status(block),
        },
        Task::Valid { block } => Outcome::Is {
            valid: unit.ram_is_valid(block),
        },
        Task::Facts { block } => Outcome::FactsAre {
            facts: unit.block_facts(block),
        },
        Task::Ram { block } => Outcome::Copied {
            size: unit.copy_ram(block, into),
        },
        Task::Given => given(unit, into),
        Task::Line => line(alloc, unit),
        Task::Entries => Outcome::Count {
            entries: unit.entries(),
        },
        Task::Ask { kind, content } => ask(alloc, unit, kind, content),
        Task::Turn => turn(unit),
        Task::Cut { nth, keep } => cut(unit, nth, keep),
    }
}

// What is done seldom, and needs room for it, stands apart, as the opening does.
#[inline(never)]
fn restart<O: Origin>(alloc: Global, unit: &mut LentUnit<O>) -> Outcome
    ensures { Does Task.Restart result unit.old unit.new }
{
    Outcome::Found {
        found: unit.restart(alloc),
    }
}

#[inline(never)]
fn line<O: Origin>(alloc: Global, unit: &LentUnit<O>) -> Outcome
    ensures { Does Task.Line result unit.now unit.now }
{
    match unit.last_line(alloc) {
        Ok(text) => Outcome::Line { text },
        Err(LineFault::Memory) => Outcome::NoMemory,
        Err(LineFault::Down) => Outcome::Down,
        Err(LineFault::Unsound) => Outcome::Unsound,
    }
}

#[inline(always)]
fn ask<O: Origin>(
    alloc: Global,
    unit: &mut LentUnit<O>,
    kind: RequestKind,
    content: &[u8],
) -> Outcome
    requires { CanDo (Task.Ask kind content) unit.old }
    ensures { Does (Task.Ask kind content.entry) result unit.old unit.new }
{
    if !unit.is_up() {
        return Outcome::Down;
    }
    Outcome::Asked {
        answer: unit.enter(alloc, kind, content),
    }
}

fn given<O: Origin>(unit: &LentUnit<O>, into: &mut [u8]) -> Outcome
    ensures does { Does Task.Given result unit.now unit.now }
    ensures copies { Copies Task.Given result unit.now into.old into.new }
{
    match unit.copy_given(into) {
        Some(size) => Outcome::Copied { size },
        None => Outcome::Nothing,
    }
}

fn turn<O: Origin>(unit: &mut LentUnit<O>) -> Outcome
    ensures { Does Task.Turn result unit.old unit.new }
{
    if !unit.is_up() {
        return Outcome::Down;
    }
    Outcome::Turned {
        turned: unit.turn(),
    }
}

fn cut<O: Origin>(unit: &mut LentUnit<O>, nth: u32, keep: u32) -> Outcome
    ensures { Does (Task.Cut nth keep) result unit.old unit.new }
{
    if !unit.is_up() {
        return Outcome::Down;
    }
    if unit.arm(nth, keep) {
        Outcome::Planned
    } else {
        Outcome::NotPlanned
    }
}
