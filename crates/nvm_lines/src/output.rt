// Writing the lines of the output.
ghost use Rattle.std.specs.Prelude.{◌≡◌, [], ◌∷◌, ◌-◌, drop, take, IfErr, OnOk};
ghost use Rattle.nv_base.specs.Count.{Rose};
ghost use Rattle.nv_streams.specs.Sink.{Puts, PutsPart};
ghost use Rattle.nvm_script.specs.Cut.{cut_lines};
ghost use Rattle.nvm_script.specs.Printed.{history_lines};
ghost use Rattle.nvm_lines.specs.Output.{fault_status, IsReport, Writes, BreaksOff, IsEndOf};
ghost use Rattle.nvm_lines.specs.Stop.{status_of, IsStop};

use crate::Status;
use crate::stop::Stop;
use nv_base::History;
use nv_streams::{Sink, SinkAnswer};
use nvm_script::{end_text, entry_text_in, line_length};
use std::alloc::{AllocError, Global};

/// Why the output wasn't written: a counted fault, or want of memory.
#[derive(Clone, Copy)]
pub enum OutputFault {
    Failed,
    Memory,
}

impl From<AllocError> for OutputFault {
    ghost use Rattle.nvm_lines.specs.declared.output.OutputFault.TheVariants.{Memory};

    ghost from_gives = { λ _ fault. fault ≡ Memory };

    fn from(_error: AllocError) -> OutputFault {
        OutputFault::Memory
    }
}

impl OutputFault {
    /// The status that it gives.
    pub fn status(self) -> Status
        ensures { result ≡ fault_status self }
    {
        match self {
            OutputFault::Failed => Status::WriteFault,
            OutputFault::Memory => Status::Memory,
        }
    }
}

/// Writes one line, by one put.
pub fn put_line<K: Sink>(output: &mut K, line: &[u8]) -> Result<(), OutputFault>
    ensures ok { OnOk result (K.faults output.new ≡ K.faults output.old) }
    ensures line { OnOk result (Puts (K.written output.old) (K.written output.new) (line.now ∷ [])) }
    ensures failed { IfErr result (λ fault. (fault ≡ OutputFault.Failed) × Rose (K.faults output.old) (K.faults output.new)) }
    ensures part { IfErr result (λ _. PutsPart (K.written output.old) (K.written output.new) (line.now ∷ [])) }
{
    match output.put(line) {
        SinkAnswer::Done => Ok(()),
        SinkAnswer::Failed => Err(OutputFault::Failed),
    }
}

/// Writes a text, each line by one put.
pub fn put_lines<K: Sink>(output: &mut K, text: &[u8]) -> Result<(), OutputFault>
    ensures ok { OnOk result (K.faults output.new ≡ K.faults output.old) }
    ensures lines { OnOk result (Puts (K.written output.old) (K.written output.new) (cut_lines text.now)) }
    ensures failed { IfErr result (λ fault. (fault ≡ OutputFault.Failed) × Rose (K.faults output.old) (K.faults output.new)) }
    ensures part { IfErr result (λ _. PutsPart (K.written output.old) (K.written output.new) (cut_lines text.now)) }
{
    let mut at = 0;
    while at < text.len() {
        let next = at + line_length(&text[at..]);
        let Ok(()) = put_line(output, &text[at..next]) else {
            return Err(OutputFault::Failed);
        };
        at = next;
    }
    Ok(())
}

/// Writes the entries of a history from one place to another, one line each, all in the memory of the longest.
pub fn write_entries<K: Sink>(
    alloc: Global,
    history: &History,
    from: u32,
    to: u32,
    output: &mut K,
) -> Result<(), OutputFault>
    ensures ok { OnOk result (K.faults output.new ≡ K.faults output.old) }
    ensures lines { OnOk result (Puts (K.written output.old) (K.written output.new) (history_lines (take (to - from) (drop from history.now.entries)))) }
    ensures failed { IfErr result (λ fault. fault ≡ OutputFault.Failed → Rose (K.faults output.old) (K.faults output.new)) }
    ensures part { IfErr result (λ fault. BreaksOff fault (take (to - from) (drop from history.now.entries)) (K.written output.old) (K.written output.new)) }
{
    let mut line = Vec::new(alloc);
    for i in from..to {
        if let Some(entry) = history.entry(i) {
            line = entry_text_in(line, entry)?;
            let Ok(()) = put_line(output, line.as_slice()) else {
                return Err(OutputFault::Failed);
            };
        }
    }
    Ok(())
}

/// Writes the entries of a history, one line each.
pub fn write_history<K: Sink>(
    alloc: Global,
    history: &History,
    output: &mut K,
) -> Result<(), OutputFault>
    ensures ok { OnOk result (K.faults output.new ≡ K.faults output.old) }
    ensures lines { OnOk result (Puts (K.written output.old) (K.written output.new) (history_lines history.now.entries)) }
    ensures failed { IfErr result (λ fault. fault ≡ OutputFault.Failed → Rose (K.faults output.old) (K.faults output.new)) }
    ensures part { IfErr result (λ fault. BreaksOff fault history.now.entries (K.written output.old) (K.written output.new)) }
{
    write_entries(alloc, history, 0, history.len(), output)
}

/// Writes the last line of a whole history, how many entries it has, and gives Ok or the status of the fault in its
/// place.
pub fn write_end<K: Sink>(alloc: Global, history: &History, output: &mut K) -> Status
    ensures status { IsReport Status.Ok result }
    ensures line { Writes (IsEndOf history.now.entries) (K.written output.old) (K.written output.new) result }
    ensures failed { result ≡ Status.WriteFault → Rose (K.faults output.old) (K.faults output.new) }
{
    let Ok(text) = end_text(alloc, history.len()) else {
        return Status::Memory;
    };
    match put_line(output, text.as_slice()) {
        Ok(()) => Status::Ok,
        Err(fault) => fault.status(),
    }
}

/// Writes the line of a stop and gives its status, or the status of the fault in its place.
pub fn report<K: Sink>(alloc: Global, stop: Stop, output: &mut K) -> Status
    ensures status { IsReport (status_of stop) result }
    ensures line { Writes (IsStop stop) (K.written output.old) (K.written output.new) result }
    ensures failed { result ≡ Status.WriteFault → Rose (K.faults output.old) (K.faults output.new) }
{
    if stop == Stop::Memory {
        return Status::Memory;
    }
    let Ok(line) = stop.line(alloc) else {
        return Status::Memory;
    };
    match put_line(output, line.as_bytes()) {
        Ok(()) => stop.status(),
        Err(fault) => fault.status(),
    }
}
