// What the unit does.
ghost use Rattle.std.specs.Prelude.{◌≡◌, true};
ghost use Rattle.nvm.specs.block_machine.Legal.{HasStore};
ghost use Rattle.nvm.specs.Unit.{Stays};

use nvm::{Flash, Origin, Reply, ReqResult, Request, Turned, Unit, UnitStack, bytes_of};
use std::alloc::Global;

/// The block of the kilometres, one byte.
const KILOMETRES: u16 = 2;

/// Cycles of a ReadAll at most.
const START: u32 = 20;

/// Cycles of a WriteAll at most, with a switch of the banks before each record: by `tools/plan` 146 of the configuration id and 56
/// of the kilometres, each with its Pick, and the Pick and the Post of the request itself.
pub const SHUTDOWN: u32 = 206;

/// An odometer that drives so many kilometres in this life, the last one with a power cut at that operation of its write, if it
/// is not 0. Behind its run it has what it found, what was stored for certain, and the cycles that its shutdown took, if the
/// power was still on.
#[derive(Drop)]
pub struct Odometer {
    pub drives: u8,
    pub cut_at: u32,
    pub found: u8,
    pub stored: u8,
    pub shutdown: Option<u32>,
}

impl Odometer {
    pub fn make(drives: u8, cut_at: u32) -> Odometer {
        Odometer {
            drives,
            cut_at,
            found: 0,
            stored: 0,
            shutdown: None,
        }
    }
}

impl Unit for Odometer {
    // nothing is asked of a run
    ghost ran = { λ before behind plans entries. Unit {0} };

    fn run<F: Flash, O: Origin>(&mut self, alloc: Global, stack: &mut UnitStack<F, O>) {
        ask(alloc, stack, Request::ReadAll);
        cycles(stack, 0, START);
        self.found = kilometres(stack);
        self.stored = self.found;
        for left in 0..self.drives {
            if left + 1 == self.drives {
                stack.arm(0, self.cut_at, 0);
            }
            let driven = self.stored.saturating_add(1);
            write(alloc, stack, driven);
            cycles(stack, KILOMETRES, SHUTDOWN);
            if let ReqResult::Fine = stack.status(KILOMETRES) {
                self.stored = driven;
            }
        }
        if ask(alloc, stack, Request::WriteAll) {
            self.shutdown = Some(cycles(stack, 0, SHUTDOWN));
        }
    }
}

/// The 10 ms task: one turn, which changes the flash by one operation at most.
fn task<F: Flash, O: Origin>(stack: &mut UnitStack<F, O>) -> Turned
    requires { stack.old.ready ≡ true }
    ensures ready { stack.new.ready ≡ true }
    ensures stays { Stays stack.old stack.new }
{
    stack.turn()
}

/// Cycles until a request is served or the power is off, at most so many. Answers how many it took. Looking at a status adds no entry.
fn cycles<F: Flash, O: Origin>(stack: &mut UnitStack<F, O>, block: u16, most: u32) -> u32
    requires { stack.old.ready ≡ true }
    ensures ready { stack.new.ready ≡ true }
    ensures stays { Stays stack.old stack.new }
{
    for cycle in 0..most {
        if !matches!(stack.status(block), ReqResult::Pending) {
            return cycle;
        }
        if let Turned::Off = task(stack) {
            return cycle;
        }
    }
    most
}

/// Asks for something. A request that isn't accepted is a fault of the program.
fn ask<F: Flash, O: Origin>(alloc: Global, stack: &mut UnitStack<F, O>, request: Request) -> bool
    requires ready { stack.old.ready ≡ true }
    requires store { HasStore stack.old.desk.config request }
    ensures ready { stack.new.ready ≡ true }
    ensures stays { Stays stack.old stack.new }
{
    matches!(stack.ask(alloc, 0, request), Ok(Reply::Accepted))
}

/// Writes the kilometres.
fn write<F: Flash, O: Origin>(alloc: Global, stack: &mut UnitStack<F, O>, kilometres: u8) -> bool
    requires { stack.old.ready ≡ true }
    ensures ready { stack.new.ready ≡ true }
    ensures stays { Stays stack.old stack.new }
{
    let Ok(content) = bytes_of(alloc, &[kilometres]) else {
        return false;
    };
    let request = Request::Write {
        block: KILOMETRES,
        content: Some(content),
        store: 0,
    };
    ask(alloc, stack, request)
}

/// What the unit's RAM has.
fn kilometres<F: Flash, O: Origin>(stack: &UnitStack<F, O>) -> u8 {
    match stack.ram(KILOMETRES).first() {
        Some(kilometres) => *kilometres,
        None => 0,
    }
}
