//! The program `nvm`: it makes the real input and output, and what opens an image file of the system, and executes its
//! words over them. All else is done by `nvm_top`.
#![tactic(auto)]

ghost use Rattle.std.specs.Prelude.{◌≡◌, ◌⊎◌, [], true, None};
ghost use Rattle.fls_files.specs.FileFlash.{in_file};
ghost use Rattle.nv_streams.specs.HeldSink.{Passes, IsUnflushed};

use fls_files::{FileFlash, ImageFault, ImageFile, SeenFile};
use nv_streams::{HeldSink, Sink, SinkAnswer, StdSource};
use nvm_top::{ImageOpener, Status, execute};
use std::alloc::{AllocError, Global};
use std::io::{IsTerminal, Stdout, Write};
use std::process::ExitCode;
use std::sync::Wait;
use std::thread::Threads;
use std::{env, io};

/// The most bytes of output that are held back, where it is no terminal: 64 KiB.
const HELD: usize = 65_536;

/// The words after the program's name; no words, which are of no command, where one of them isn't UTF-8.
fn words(rt: &HostRuntime) -> io::Result<Vec<String>> {
    let mut words = Vec::new(rt.alloc());
    let args = match env::args(rt) {
        Ok(args) => args,
        Err(error) if error.kind() == io::ErrorKind::InvalidData => return Ok(words),
        Err(error) => return Err(error),
    };
    for word in args.skip(1) {
        words.push(word).map_err(AllocError::from)?;
    }
    Ok(words)
}

/// The first word, which is the path of an image file, if the words name one.
fn first(words: &[String]) -> &str {
    match words.first() {
        Some(word) => word.as_str(),
        None => "",
    }
}

/// The name under which that file is made, where nothing has its path, until it is whole.
fn beside(alloc: Global, words: &[String]) -> Result<String, AllocError> {
    let mut name = String::new(alloc);
    name.push_str(first(words))?;
    name.push_str(".new")?;
    Ok(name)
}

/// An image file of the system, of which is kept in memory what was read and written.
type SystemImage<'a> = FileFlash<SeenFile<ImageFile<'a, HostRuntime>>>;

/// What opens an image file of the system, with the name under which that is made.
#[derive(Drop)]
struct SystemOpener<'a> {
    rt: &'a HostRuntime,
    beside: &'a str,
}

impl<'a> ImageOpener<'a> for SystemOpener<'a> {
    type Image = SystemImage<'a>;

    ghost opened = { λ _ _ _. (in_file true None).told };

    fn image(self, path: &'a str, alone: bool) -> SystemImage<'a> {
        let file = if alone {
            ImageFile::to_read(self.rt, path)
        } else {
            ImageFile::to_change(self.rt, path, self.beside)
        };
        FileFlash::over(SeenFile::over(self.rt.alloc(), file))
    }
}

/// Says which file is at fault, where the image file wasn't opened for that.
fn tell(rt: &HostRuntime, path: &str, beside: &str, flash: &SystemImage<'_>) {
    let Some(seen) = flash.file() else {
        return;
    };
    let _ = match seen.file().fault() {
        Some(ImageFault::InUse) => {
            eprintln!(rt; "nvm: another call has {path}: try again when it has ended")
        }
        Some(ImageFault::InTheWay) => {
            eprintln!(rt;
                "nvm: {beside} is in the way, and no call of nvm has left it there: move it away"
            )
        }
        _ => Ok(()),
    };
}

/// Executes the words over the standard input and this output, with the name under which an image file is made, and says which
/// file is at fault. Gives the code of the command, whose callers are threads of this.
fn executed<R: Threads + Wait + Sync, K: Sink>(
    rt: &HostRuntime,
    threads: &R,
    words: &[String],
    beside: &str,
    output: &mut K,
) -> u8 {
    let mut input = StdSource::make(rt.stdin());
    let (code, image) = execute(
        threads,
        rt.alloc(),
        words,
        &mut input,
        output,
        SystemOpener { rt, beside },
    );
    if let Ok(image) = image {
        tell(rt, first(words), beside, &image);
    }
    code
}

/// Passes on what the output holds, and gives the code with which the program ends: the command's, where all that it put stands in
/// the writer then; that of a fault of the output, where a beginning of it does.
fn ended<W: Write>(code: u8, output: &mut HeldSink<W>) -> u8
    ensures { ((result ≡ code) × Passes output.old output.new output.old.held []) ⊎ ((result ≡ 6) × IsUnflushed SinkAnswer.Failed output.old output.new) }
{
    match output.flush() {
        SinkAnswer::Done => code,
        SinkAnswer::Failed => Status::WriteFault.code(),
    }
}

/// Executes the words over this output. Behind it nothing is held back, or the code is that of a fault of the output.
fn flushed<R: Threads + Wait + Sync, W: Write>(
    rt: &HostRuntime,
    threads: &R,
    words: &[String],
    beside: &str,
    output: &mut HeldSink<W>,
) -> u8
    ensures { (output.new.held ≡ []) ⊎ (result ≡ 6) }
{
    let code = executed(rt, threads, words, beside, output);
    ended(code, output)
}

/// The standard output, which holds lines back where it is no terminal.
fn output(rt: &HostRuntime) -> Result<HeldSink<Stdout>, AllocError> {
    let stdout = rt.stdout();
    let most = if stdout.is_terminal() { 0 } else { HELD };
    Ok(HeldSink::over(stdout, Vec::with_capacity(rt.alloc(), most)?))
}

/// Executes the words, and gives the exit code of the program: that of no memory, where there is none for an output or a name.
fn answered<R: Threads + Wait + Sync>(rt: &HostRuntime, threads: &R, words: &[String]) -> u8 {
    match (beside(rt.alloc(), words), output(rt)) {
        (Ok(beside), Ok(mut output)) => {
            flushed(rt, threads, words, beside.as_str(), &mut output)
        }
        _ => Status::Memory.code(),
    }
}

fn main(rt: HostRuntime) -> ExitCode {
    ExitCode::from(match words(&rt) {
        Ok(words) => answered(&rt, &rt, &words),
        Err(_) => Status::Memory.code(),
    })
}
