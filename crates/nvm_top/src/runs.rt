// How a run is written.
ghost use Rattle.std.specs.Prelude.{◌≡◌, []};
ghost use Rattle.nvm_flash.specs.nv_base.Count.{Rose};
ghost use Rattle.nvm_top.specs.Promised.{WritesText, entries_in};
ghost use Rattle.nvm_top.specs.Runs.{run_of, status_of_run, lines_written};

use nvm_flash::History;
use nvm_lines::nv_streams::Sink;
use nvm_lines::{Status, Stop, put_lines, report, write_end, write_history};
use nvm_script::summary_text;
use script_player::StepFault;
use std::alloc::Global;

/// What is written of a run: its history line by line with its last line, or the summary of its history.
#[derive(Clone, Copy)]
pub enum RunText {
    History,
    Summary,
}

/// How a run ended, by why its steps stopped.
pub fn stop_of(run: Result<(), StepFault>) -> Result<(), Stop>
    ensures { result ≡ run_of run }
{
    match run {
        Ok(()) => Ok(()),
        Err(StepFault::Flash) => Err(Stop::FlashFault),
        Err(StepFault::HistoryFull) => Err(Stop::HistoryFull),
        Err(StepFault::Memory) => Err(Stop::Memory),
    }
}

// Writes the history of a run, and then its end or why it stopped.
fn write_run<K: Sink>(
    alloc: Global,
    run: Result<(), Stop>,
    history: &History,
    output: &mut K,
) -> Status
    ensures text { WritesText (status_of_run run) history.now.entries (lines_written RunText.History run history.now.entries) (K.written output.old) (K.written output.new) result }
    ensures write_fault { result ≡ Status.WriteFault → Rose (K.faults output.old) (K.faults output.new) }
{
    if run == Err(Stop::Memory) {
        return Status::Memory;
    }
    if let Err(fault) = write_history(alloc, history, output) {
        return fault.status();
    }
    match run {
        Ok(()) => write_end(alloc, history, output),
        Err(stop) => report(alloc, stop, output),
    }
}

// Writes the summary of a run, or why it stopped.
fn write_summary<K: Sink>(
    alloc: Global,
    run: Result<(), Stop>,
    history: &History,
    output: &mut K,
) -> Status
    ensures text { WritesText (status_of_run run) [] (lines_written RunText.Summary run history.now.entries) (K.written output.old) (K.written output.new) result }
    ensures write_fault { result ≡ Status.WriteFault → Rose (K.faults output.old) (K.faults output.new) }
{
    if let Err(stop) = run {
        return report(alloc, stop, output);
    }
    let Ok(text) = summary_text(alloc, history) else {
        return Status::Memory;
    };
    match put_lines(output, text.as_slice()) {
        Ok(()) => Status::Ok,
        Err(fault) => fault.status(),
    }
}

/// Writes a run.
pub fn write_text<K: Sink>(
    alloc: Global,
    text: RunText,
    run: Result<(), Stop>,
    history: &History,
    output: &mut K,
) -> Status
    ensures text { WritesText (status_of_run run) (entries_in text history.now.entries) (lines_written text run history.now.entries) (K.written output.old) (K.written output.new) result }
    ensures write_fault { result ≡ Status.WriteFault → Rose (K.faults output.old) (K.faults output.new) }
{
    match text {
        RunText::History => write_run(alloc, run, history, output),
        RunText::Summary => write_summary(alloc, run, history, output),
    }
}
