// One call of the commands in memory.
use crate::counted::Counted;
use crate::faults::Faults;
use fls_devices::FaultScript;
use fls_model::{Flash, MemFlash, mem_flash};
use nv_streams::{Sink, Source, mem_sink, mem_source};
use nvm_top::command;
use std::alloc::{AllocError, AllocGlobal, Global};
use std::sync::Wait;
use std::thread::Threads;

/// What a call left: its status, what it wrote, the bytes of its flash, and how many changing operations and reads the
/// flash was asked for.
#[derive(Drop)]
pub struct Called {
    pub status: u8,
    pub output: Vec<u8>,
    pub flash: Vec<u8>,
    pub operations: u64,
    pub reads: u64,
}

impl Called {
    /// Whether another call wrote the same, and left the same bytes of its flash.
    pub fn left_same(&self, other: &Called) -> bool {
        self.output.as_slice() == other.output.as_slice()
            && self.flash.as_slice() == other.flash.as_slice()
    }
}

/// Calls the command of these words on an input and over a flash of these bytes.
pub fn call<R: AllocGlobal + Threads + Wait + Sync>(
    rt: &R,
    words: &[String],
    input: &[u8],
    flash: &[u8],
    faults: &Faults,
) -> Result<Called, AllocError> {
    let alloc = rt.alloc();
    let mut source = mem_source(alloc, input, &faults.takes)?;
    let mut sink = mem_sink(alloc, &faults.puts)?;
    let flash = flash_of(alloc, flash, faults)?;
    let (status, flash) = run(rt, alloc, words, &mut source, &mut sink, flash);
    let (operations, reads) = flash.calls();
    let flash = flash.into_inner().into_inner();
    Ok(Called {
        status,
        output: sink.bytes().to_vec(alloc)?,
        flash: flash.bytes().to_vec(alloc)?,
        operations,
        reads,
    })
}

// The one place at which the commands are called: it says nothing of what they promise.
fn run<R: Threads + Wait + Sync, S: Source, K: Sink, F: Flash>(
    rt: &R,
    alloc: Global,
    words: &[String],
    input: &mut S,
    output: &mut K,
    flash: F,
) -> (u8, F) {
    let (status, flash) = command(rt, alloc, words, input, output, flash);
    (status.code(), flash)
}

fn flash_of(
    alloc: Global,
    bytes: &[u8],
    faults: &Faults,
) -> Result<Counted<FaultScript<MemFlash>>, AllocError> {
    let flash = mem_flash(alloc, bytes, 0)?;
    let flash = FaultScript::make(alloc, flash, &faults.operations, &faults.reads)?;
    Ok(Counted::make(flash))
}
