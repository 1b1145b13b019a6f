// A unit that runs for years.
ghost use Rattle.std.specs.Prelude.{◌≡◌, true};
ghost use Rattle.nvm.specs.Unit.{Stays};

use nvm::{Flash, LentRequest, Origin, Reply, ReqResult, RequestKind, Unit, UnitStack};
use std::alloc::Global;

/// The block of the log.
const LOG: u16 = 2;

/// The block of a crash, of priority 0: its writes are immediate.
const CRASH: u16 = 3;

/// Cycles of a write of the log before a crash comes.
const BEFORE: u32 = 9;

/// Cycles of a write at most, with a switch of the banks before each of its records.
const MOST: u32 = 400;

/// A recorder that writes its log again and again, and each time a crash comes meanwhile, which is written at once. Behind its run it
/// has how many of its requests were accepted, how many writes were stored, and how many crashes were stored while a write of the
/// log was still pending, which began anew behind them.
#[derive(Drop)]
pub struct CrashRecorder {
    pub requests: u32,
    pub accepted: u32,
    pub stored: u32,
    pub interrupted: u32,
}

impl CrashRecorder {
    /// One that makes so many requests.
    pub fn make(requests: u32) -> CrashRecorder {
        CrashRecorder {
            requests,
            accepted: 0,
            stored: 0,
            interrupted: 0,
        }
    }

    // A write of the log, and a crash.
    fn record<F: Flash, O: Origin>(&mut self, stack: &mut UnitStack<F, O>, byte: u8)
        requires { stack.old.ready ≡ true }
        ensures ready { stack.new.ready ≡ true }
        ensures stays { Stays stack.old stack.new }
    {
        self.write(stack, LOG, &[byte; 256]);
        cycles(stack, LOG, BEFORE);
        self.write(stack, CRASH, &[byte; 4]);
        cycles(stack, CRASH, MOST);
        if is_pending(stack, LOG) {
            self.interrupted = self.interrupted.saturating_add(1);
        }
        cycles(stack, LOG, MOST);
        self.count(stack, LOG);
        self.count(stack, CRASH);
    }

    // Asks for a write. Its content is lent, so it takes no memory.
    fn write<F: Flash, O: Origin>(
        &mut self,
        stack: &mut UnitStack<F, O>,
        block: u16,
        content: &[u8],
    )
        requires { stack.old.ready ≡ true }
        ensures ready { stack.new.ready ≡ true }
        ensures stays { Stays stack.old stack.new }
    {
        let kind = RequestKind::Write { block, store: 0 };
        let request = LentRequest { kind, content };
        let before = stack.stack();
        if before.keeps_entries() || !before.content_fits(request) {
            return;
        }
        if let Ok(Reply::Accepted) = stack.enter(0, request) {
            self.accepted = self.accepted.saturating_add(1);
        }
    }

    // Counts the last write of a block, where it was stored.
    fn count<F: Flash, O: Origin>(&mut self, stack: &UnitStack<F, O>, block: u16) {
        if let ReqResult::Fine = stack.status(block) {
            self.stored = self.stored.saturating_add(1);
        }
    }
}

impl Unit for CrashRecorder {
    // nothing is asked of a run
    ghost ran = { λ before behind plans entries. Unit {0} };

    fn run<F: Flash, O: Origin>(&mut self, alloc: Global, stack: &mut UnitStack<F, O>) {
        for crash in 0..self.requests / 2 {
            self.record(stack, (crash % 256) as u8);
        }
    }
}

fn is_pending<F: Flash, O: Origin>(stack: &UnitStack<F, O>, block: u16) -> bool {
    matches!(stack.status(block), ReqResult::Pending)
}

// Cycles until a write is served, at most so many.
fn cycles<F: Flash, O: Origin>(stack: &mut UnitStack<F, O>, block: u16, most: u32)
    requires { stack.old.ready ≡ true }
    ensures ready { stack.new.ready ≡ true }
    ensures stays { Stays stack.old stack.new }
{
    for _cycle in 0..most {
        if !is_pending(stack, block) {
            return;
        }
        let _turned = stack.turn();
    }
}
