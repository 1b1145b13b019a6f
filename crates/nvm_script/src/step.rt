// The steps of a script.
use nv_base::{Bytes, Request};

/// What a step asks for: a request to the NVRAM Manager, a store of the application into synchronized RAM, turns of
/// the stack, turns until no job is left, power on with a start-up, a power cut at the nth changing flash operation
/// from here on that keeps `keep` bytes, the same at the second device's flash, copies of a synchronized block to be
/// refused, or to wait until the block's status isn't pending.
#[derive(Clone, Drop)]
pub enum StepKind {
    Ask(Request),
    Store { block: u16, content: Bytes },
    Turn { count: u32 },
    Drain,
    Restart,
    Cut { nth: u32, keep: u32 },
    CutSecond { nth: u32, keep: u32 },
    Refuse { block: u16, count: u32 },
    Await { block: u16 },
}

/// One step, with its line of the input, from 1, and its caller.
#[derive(Drop)]
pub struct Step {
    pub line: u32,
    pub caller: u8,
    pub kind: StepKind,
}
