// A call whose flash tells its operations.
ghost use Rattle.std.specs.Prelude.{◌≡◌, map, string_bytes, true, IfOk};
ghost use Rattle.nvm_words.specs.Words.{command_of, is_play};
ghost use Rattle.nvm_top.specs.Worked.{CutsLeaveAt, memory_call};

use crate::commands::play_command;
use nvm_flash::{MemFlash, mem_flash};
use nvm_lines::Status;
use nvm_lines::nv_streams::{Sink, Source};
use std::alloc::{AllocError, Global};

/// Plays the steps of the input over a blank flash in memory that has room to tell so many changing operations, and gives it
/// back. Where no more were made, each image that a power cut may leave keeps to the history: nothing else is asked.
pub fn play_with_room<S: Source, K: Sink>(
    alloc: Global,
    words: &[String],
    input: &mut S,
    output: &mut K,
    operations: u32,
) -> Result<(Status, MemFlash), AllocError>
    ensures { IfOk result (λ r. is_play (command_of (map string_bytes words.now)) ≡ true → CutsLeaveAt r.0 operations (memory_call operations (S.left input.old) r.0 r.1.told (K.written output.old) (K.written output.new))) }
{
    let flash = mem_flash(alloc, &[], operations)?;
    let (status, flash) = play_command(alloc, words, input, output, flash);
    flash.bytes();
    Ok((status, flash))
}
