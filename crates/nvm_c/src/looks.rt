// What a unit shows. None of it adds an entry.
ghost use Rattle.std.specs.Prelude.{◌≡◌, ◌≢◌, ◌⊎◌, ◌≤◌, length, take, IsSome};
ghost use Rattle.nvm.specs.block_machine.Blocks.{block_at, status_of};
ghost use Rattle.nvm.specs.nv_base.Result.{code_of};
ghost use Rattle.nvm.specs.nv_desk.Desk.{state_of};
ghost use Rattle.nvm_c.specs.Exports.{IsGiven, IsLine, IsRam, Looks};
ghost use Rattle.nvm_c.specs.Texts.{IsDescribed, flag};

use crate::filled::fill;
use crate::handle::{Handle, copy_out, work_on};
use crate::texts::BlockFacts;
use crate::work::{Outcome, Task, UnitWork};
use nvm::result_code;
use std::alloc::Global;

/// The status of a block, by the standard's number (NvM_GetErrorStatus); of id 0 that of the last request on all blocks.
#[unsafe(no_mangle)]
pub extern "C" fn nvm_status(alloc: Global, handle: &mut Handle, block: u16) -> u8
    requires open { IsSome handle.old.kept }
    ensures status { Looks handle.old.kept handle.new.kept (λ s. result ≡ code_of (status_of (state_of s.desk) block)) }
{
    let task = Task::Status { block };
    match work_on(alloc, handle, UnitWork::Serve { task }) {
        Outcome::StatusIs { result } => result_code(result),
        _other => 0,
    }
}

/// Whether the RAM of a block is valid. 1: it is. 0: it isn't, or the manager keeps none.
#[unsafe(no_mangle)]
pub extern "C" fn nvm_ram_is_valid(alloc: Global, handle: &mut Handle, block: u16) -> u8
    requires open { IsSome handle.old.kept }
    ensures valid { Looks handle.old.kept handle.new.kept (λ s. result ≡ flag (block_at (state_of s.desk) block).valid) }
{
    let task = Task::Valid { block };
    match work_on(alloc, handle, UnitWork::Serve { task }) {
        Outcome::Is { valid: true } => 1,
        _other => 0,
    }
}

/// What the unit's configuration says of the block with an id, 1 for the manager's own. 0: it stands in `facts`.
/// 1: there is no such block, and they stay as they are. It reads no text and takes no memory.
#[unsafe(no_mangle)]
pub extern "C" fn nvm_block(
    alloc: Global,
    handle: &mut Handle,
    block: u16,
    facts: &mut BlockFacts,
) -> u8
    requires open { IsSome handle.old.kept }
    ensures described { Looks handle.old.kept handle.new.kept (λ s. IsDescribed s.desk.config block result facts.old facts.new) }
{
    let task = Task::Facts { block };
    match work_on(alloc, handle, UnitWork::Serve { task }) {
        Outcome::FactsAre { facts: Some(found) } => {
            *facts = found;
            0
        }
        _other => 1,
    }
}

/// How many entries the history has. They are counted, and not kept.
#[unsafe(no_mangle)]
pub extern "C" fn nvm_entries(alloc: Global, handle: &mut Handle) -> u32
    requires open { IsSome handle.old.kept }
    ensures entries { Looks handle.old.kept handle.new.kept (λ s. result ≡ length s.desk.entries) }
{
    let task = Task::Entries;
    match work_on(alloc, handle, UnitWork::Serve { task }) {
        Outcome::Count { entries } => entries,
        _other => 0,
    }
}

/// Copies the content of a block's RAM to the front of `into`, where it has room for it, and tells its size. It answers 0, and takes no
/// memory.
#[unsafe(no_mangle)]
pub extern "C" fn nvm_ram(
    alloc: Global,
    handle: &mut Handle,
    block: u16,
    into: &mut [u8],
    size: &mut usize,
) -> u8
    requires open { IsSome handle.old.kept }
    ensures ram { Looks handle.old.kept handle.new.kept (λ s. IsRam block result size.new into.old into.new s) }
{
    *size = 0;
    let task = Task::Ram { block };
    match copy_out(alloc, handle, task, into) {
        Outcome::Copied { size: copied } => {
            *size = copied;
            0
        }
        _other => 0,
    }
}

/// Copies what the last entry gave, where that is a Post that gave something, as behind a turn that answers 3. 0: so it was done. 1:
/// it gave nothing. It takes no memory.
#[unsafe(no_mangle)]
pub extern "C" fn nvm_given(
    alloc: Global,
    handle: &mut Handle,
    into: &mut [u8],
    size: &mut usize,
) -> u8
    requires open { IsSome handle.old.kept }
    ensures given { Looks handle.old.kept handle.new.kept (λ s. IsGiven result size.new into.old into.new s) }
{
    *size = 0;
    match copy_out(alloc, handle, Task::Given, into) {
        Outcome::Copied { size: copied } => {
            *size = copied;
            0
        }
        _other => 1,
    }
}

/// Copies the line of the last entry to the front of `into`, where it has room for it, and tells its size: as `play` prints it, with
/// its newline. Each call adds one entry at most, so the lines that are taken behind each call that did are the history. That of a
/// start-up is written from what stands on the flash. 0: so it was done. 1: there is no entry. 4: there is no memory. Of a start-up's
/// entry alone, 5: a further start-up failed. 6: the memory that was lent didn't hold a sound image, and an operation was made.
#[unsafe(no_mangle)]
pub extern "C" fn nvm_line(
    alloc: Global,
    handle: &mut Handle,
    into: &mut [u8],
    size: &mut usize,
) -> u8
    requires open { IsSome handle.old.kept }
    ensures line { Looks handle.old.kept handle.new.kept (λ s. IsLine result size.new into.old into.new s) }
{
    *size = 0;
    let task = Task::Line;
    match work_on(alloc, handle, UnitWork::Serve { task }) {
        Outcome::Line { text } => match text {
            Some(text) => {
                *size = fill(text.as_slice(), into);
                0
            }
            None => 1,
        },
        Outcome::Down => 5,
        Outcome::Unsound => 6,
        _other => 4,
    }
}
