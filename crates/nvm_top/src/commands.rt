// The call of the program, and a call for each command alone.
ghost use Rattle.std.specs.Prelude.{map, string_bytes};
ghost use Rattle.nvm_top.specs.Commands.{ended, KeepsCommand, KeepsOnly};
ghost use Rattle.nvm_top.specs.Soak.{is_soak};
ghost use Rattle.nvm_words.specs.Words.{command_of, is_check, is_dump, is_play, is_run, is_uds};

use crate::check::check;
use crate::dump::dump;
use crate::play::play;
use crate::run::run;
use crate::soak::soak;
use crate::uds::uds;
use nvm_flash::Flash;
use nvm_lines::nv_streams::{Sink, Source};
use nvm_lines::{Status, Stop, report};
use nvm_words::{CommandKind, command_of};
use std::alloc::{AllocError, Global};
use std::sync::Wait;
use std::thread::Threads;

/// Runs the command that the words name over the input, the output and the flash, and gives the flash back. `run` may wait, and
/// so this call may too.
pub fn command<R: Threads + Wait + Sync, S: Source, K: Sink, F: Flash>(
    rt: &R,
    alloc: Global,
    words: &[String],
    input: &mut S,
    output: &mut K,
    flash: F,
) -> (Status, F)
    ensures { KeepsCommand (command_of (map string_bytes words.now)) (ended result.0 (S.left input.old) (S.left input.new) (S.faults input.old) (S.faults input.new) (K.written output.old) (K.written output.new) (K.faults output.old) (K.faults output.new) (F.told flash) (F.told result.1)) }
{
    match command_of(alloc, words) {
        Ok(None) => (report(alloc, Stop::BadWords, output), flash),
        Ok(Some(CommandKind::Play)) => play(alloc, input, output, flash),
        Ok(Some(CommandKind::Run)) => run(rt, alloc, input, output, flash),
        Ok(Some(CommandKind::Soak { seed, count })) => {
            soak(alloc, seed, count, input, output, flash)
        }
        Ok(Some(CommandKind::Check)) => (check(alloc, input, output), flash),
        Ok(Some(CommandKind::Dump)) => dump(alloc, input, output, flash),
        Ok(Some(CommandKind::Uds)) => uds(alloc, input, output, flash),
        Err(AllocError) => (Status::Memory, flash),
    }
}

/// Plays the steps of the input on the flash and writes their history.
pub fn play_command<S: Source, K: Sink, F: Flash>(
    alloc: Global,
    words: &[String],
    input: &mut S,
    output: &mut K,
    flash: F,
) -> (Status, F)
    ensures { KeepsOnly is_play (command_of (map string_bytes words.now)) (ended result.0 (S.left input.old) (S.left input.new) (S.faults input.old) (S.faults input.new) (K.written output.old) (K.written output.new) (K.faults output.old) (K.faults output.new) (F.told flash) (F.told result.1)) }
{
    match command_of(alloc, words) {
        Ok(Some(CommandKind::Play)) => play(alloc, input, output, flash),
        Ok(_) => (report(alloc, Stop::BadWords, output), flash),
        Err(AllocError) => (Status::Memory, flash),
    }
}

/// Runs the callers of the input beside each other on the flash, in threads, and writes their one history. It waits for them.
pub fn run_command<R: Threads + Wait + Sync, S: Source, K: Sink, F: Flash>(
    rt: &R,
    alloc: Global,
    words: &[String],
    input: &mut S,
    output: &mut K,
    flash: F,
) -> (Status, F)
    ensures { KeepsOnly is_run (command_of (map string_bytes words.now)) (ended result.0 (S.left input.old) (S.left input.new) (S.faults input.old) (S.faults input.new) (K.written output.old) (K.written output.new) (K.faults output.old) (K.faults output.new) (F.told flash) (F.told result.1)) }
{
    match command_of(alloc, words) {
        Ok(Some(CommandKind::Run)) => run(rt, alloc, input, output, flash),
        Ok(_) => (report(alloc, Stop::BadWords, output), flash),
        Err(AllocError) => (Status::Memory, flash),
    }
}

/// Makes the steps that a seed draws on the flash, and writes the summary of their history. No step stands behind the
/// first line of the input.
pub fn soak_command<S: Source, K: Sink, F: Flash>(
    alloc: Global,
    words: &[String],
    input: &mut S,
    output: &mut K,
    flash: F,
) -> (Status, F)
    ensures { KeepsOnly is_soak (command_of (map string_bytes words.now)) (ended result.0 (S.left input.old) (S.left input.new) (S.faults input.old) (S.faults input.new) (K.written output.old) (K.written output.new) (K.faults output.old) (K.faults output.new) (F.told flash) (F.told result.1)) }
{
    match command_of(alloc, words) {
        Ok(Some(CommandKind::Soak { seed, count })) => {
            soak(alloc, seed, count, input, output, flash)
        }
        Ok(_) => (report(alloc, Stop::BadWords, output), flash),
        Err(AllocError) => (Status::Memory, flash),
    }
}

/// Tells whether the first line of the input is a configuration: how many blocks and instances it has, how many pages
/// a bank needs and how many it has, or the first rule that it breaks with its block. The lines after the first are
/// read and ignored, and the flash comes back untouched.
pub fn check_command<S: Source, K: Sink, F: Flash>(
    alloc: Global,
    words: &[String],
    input: &mut S,
    output: &mut K,
    flash: F,
) -> (Status, F)
    ensures { KeepsOnly is_check (command_of (map string_bytes words.now)) (ended result.0 (S.left input.old) (S.left input.new) (S.faults input.old) (S.faults input.new) (K.written output.old) (K.written output.new) (K.faults output.old) (K.faults output.new) (F.told flash) (F.told result.1)) }
{
    match command_of(alloc, words) {
        Ok(Some(CommandKind::Check)) => (check(alloc, input, output), flash),
        Ok(_) => (report(alloc, Stop::BadWords, output), flash),
        Err(AllocError) => (Status::Memory, flash),
    }
}

/// Writes what the flash holds: of each bank its head, its records and its tail, and which bank is active. The flash is
/// read alone. The lines of the input after the first are read and ignored.
pub fn dump_command<S: Source, K: Sink, F: Flash>(
    alloc: Global,
    words: &[String],
    input: &mut S,
    output: &mut K,
    flash: F,
) -> (Status, F)
    ensures { KeepsOnly is_dump (command_of (map string_bytes words.now)) (ended result.0 (S.left input.old) (S.left input.new) (S.faults input.old) (S.faults input.new) (K.written output.old) (K.written output.new) (K.faults output.old) (K.faults output.new) (F.told flash) (F.told result.1)) }
{
    match command_of(alloc, words) {
        Ok(Some(CommandKind::Dump)) => dump(alloc, input, output, flash),
        Ok(_) => (report(alloc, Stop::BadWords, output), flash),
        Err(AllocError) => (Status::Memory, flash),
    }
}

/// Serves the requests of the input, a line each, on a stack over the flash, and writes their history with an answer behind
/// the entries of each.
pub fn uds_command<S: Source, K: Sink, F: Flash>(
    alloc: Global,
    words: &[String],
    input: &mut S,
    output: &mut K,
    flash: F,
) -> (Status, F)
    ensures { KeepsOnly is_uds (command_of (map string_bytes words.now)) (ended result.0 (S.left input.old) (S.left input.new) (S.faults input.old) (S.faults input.new) (K.written output.old) (K.written output.new) (K.faults output.old) (K.faults output.new) (F.told flash) (F.told result.1)) }
{
    match command_of(alloc, words) {
        Ok(Some(CommandKind::Uds)) => uds(alloc, input, output, flash),
        Ok(_) => (report(alloc, Stop::BadWords, output), flash),
        Err(AllocError) => (Status::Memory, flash),
    }
}
