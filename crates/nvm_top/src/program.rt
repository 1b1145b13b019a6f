// The program: the command of the words, on the flash that they name.
ghost use Rattle.std.specs.Prelude.{◌≡◌, ℕ, Bool, List, map, string_bytes};
ghost use Rattle.nvm_flash.specs.fls_model.Told.{Told};
ghost use Rattle.nvm_words.specs.Words.{is_dump};
ghost use Rattle.nvm_top.specs.Commands.{ended};
ghost use Rattle.nvm_top.specs.Program.{IsExecuted};

use crate::commands::command;
use nvm_flash::{Flash, mem_flash};
use nvm_lines::Status;
use nvm_lines::nv_streams::{Sink, Source};
use nvm_words::{CommandKind, command_of, image_path};
use std::alloc::{AllocError, Global};
use std::sync::Wait;
use std::thread::Threads;

/// What opens an image file, once.
pub trait ImageOpener<'a> {
    /// The flash in such a file.
    type Image: Flash;

    /// What is told of the flash in the file of a path, which is to be read alone, or changed too.
    ghost opened: { Self → List ℕ → Bool → Told };

    /// Opens the file of this path.
    fn image(self, path: &'a str, alone: bool) -> Self::Image
        ensures { Self.Image.told result ≡ opened self path.now alone };
}

fn is_dump(command: Option<CommandKind>) -> bool
    ensures { result ≡ is_dump command }
{
    match command {
        Some(CommandKind::Dump) => true,
        _ => false,
    }
}

/// Runs the command that the words name over the flash in their image file, or in memory where they name none, and gives the
/// exit code of its status. The flash in the file comes back, or what would have opened one.
pub fn execute<'a, R: Threads + Wait + Sync, S: Source, K: Sink, O: ImageOpener<'a>>(
    rt: &R,
    alloc: Global,
    words: &'a [String],
    input: &mut S,
    output: &mut K,
    opener: O,
) -> (u8, Result<O::Image, O>)
    ensures { IsExecuted (map string_bytes words.now) (O.opened opener) O.Image.told opener (λ x. ended x (S.left input.old) (S.left input.new) (S.faults input.old) (S.faults input.new) (K.written output.old) (K.written output.new) (K.faults output.old) (K.faults output.new)) result.0 result.1 }
{
    match image_path(alloc, words) {
        Ok(Some(path)) => match command_of(alloc, words) {
            Ok(kind) => {
                let image = opener.image(path, is_dump(kind));
                let (status, image) = command(rt, alloc, words, input, output, image);
                (status.code(), Ok(image))
            }
            Err(AllocError) => (Status::Memory.code(), Err(opener)),
        },
        Ok(None) => match mem_flash(alloc, &[], 0) {
            Ok(flash) => {
                let (status, _flash) = command(rt, alloc, words, input, output, flash);
                (status.code(), Err(opener))
            }
            Err(AllocError) => (Status::Memory.code(), Err(opener)),
        },
        Err(AllocError) => (Status::Memory.code(), Err(opener)),
    }
}
