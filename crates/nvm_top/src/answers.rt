// The entries of requests, with their answers.
ghost use Rattle.std.specs.Prelude.{◌≡◌, [], ◌∷◌, ◌++◌, ◌-◌, ◌<◌, drop, take, length, IfErr, OnOk};
ghost use Rattle.nvm_lines.specs.nv_streams.Sink.{Puts};
ghost use Rattle.nvm_flash.specs.nv_base.Count.{Rose};
ghost use Rattle.nvm_script.specs.Printed.{history_lines};
ghost use Rattle.script_player.specs.uds_gateway.Answers.{uds};
ghost use Rattle.uds_script.specs.Lines.{uds_line};
ghost use Rattle.uds_script.specs.Requests.{HaveBytes};
ghost use Rattle.nvm_top.specs.Uds.{BreaksOffIn, HasPieces, WritesLines, answer_lines, lines_of_history, stopped_serving};
ghost use Rattle.nvm_top.specs.Runs.{last_of, status_of_run};

use nvm_flash::{Bytes, Config, History};
use nvm_lines::nv_streams::Sink;
use nvm_lines::{OutputFault, Status, Stop, put_line, report, write_end, write_entries};
use script_player::uds_gateway::{ServeStop, piece_answer};
use std::alloc::{AllocError, Global};
use uds_script::uds_text;

// Writes the line of an answer.
fn write_answer<K: Sink>(alloc: Global, answer: &[u8], output: &mut K) -> Result<(), OutputFault>
    ensures ok { OnOk result (K.faults output.new ≡ K.faults output.old) }
    ensures lines { OnOk result (Puts (K.written output.old) (K.written output.new) (uds_line answer.now ∷ [])) }
    ensures failed { IfErr result (λ fault. fault ≡ OutputFault.Failed → Rose (K.faults output.old) (K.faults output.new)) }
    ensures part { IfErr result (λ fault. BreaksOffIn fault (uds_line answer.now ∷ []) (K.written output.old) (K.written output.new)) }
{
    let text = uds_text(alloc, answer)?;
    put_line(output, text.as_slice())
}

// Writes the entries from one place to another, those of a request, and its answer.
fn write_piece<K: Sink>(
    alloc: Global,
    config: &Config,
    request: &[u8],
    history: &History,
    from: u32,
    to: u32,
    output: &mut K,
) -> Result<(), OutputFault>
    requires some { 0 < length request.now }
    ensures ok { OnOk result (K.faults output.new ≡ K.faults output.old) }
    ensures lines { let piece = take (to - from) (drop from history.now.entries) in OnOk result (Puts (K.written output.old) (K.written output.new) (history_lines piece ++ answer_lines (uds config.now request.now piece))) }
    ensures failed { IfErr result (λ fault. fault ≡ OutputFault.Failed → Rose (K.faults output.old) (K.faults output.new)) }
    ensures part { let piece = take (to - from) (drop from history.now.entries) in IfErr result (λ fault. BreaksOffIn fault (history_lines piece ++ answer_lines (uds config.now request.now piece)) (K.written output.old) (K.written output.new)) }
{
    if let Err(fault) = write_entries(alloc, history, from, to, output) {
        return Err(fault);
    }
    match piece_answer(alloc, config, request, history, from, to) {
        Ok(Some(answer)) => write_answer(alloc, answer.as_slice(), output),
        Ok(None) => Ok(()),
        Err(AllocError) => Err(OutputFault::Memory),
    }
}

// Writes a history, and behind the entries of each request its answer.
fn write_requests<K: Sink>(
    alloc: Global,
    config: &Config,
    requests: &[Bytes],
    counts: &[u32],
    history: &History,
    output: &mut K,
) -> Result<(), OutputFault>
    requires some { HaveBytes requests.now }
    requires pieces { HasPieces requests.now counts.now history.now.entries }
    ensures ok { OnOk result (K.faults output.new ≡ K.faults output.old) }
    ensures lines { OnOk result (Puts (K.written output.old) (K.written output.new) (lines_of_history config.now requests.now counts.now history.now.entries)) }
    ensures failed { IfErr result (λ fault. fault ≡ OutputFault.Failed → Rose (K.faults output.old) (K.faults output.new)) }
    ensures part { IfErr result (λ fault. BreaksOffIn fault (lines_of_history config.now requests.now counts.now history.now.entries) (K.written output.old) (K.written output.new)) }
{
    let end = history.len();
    if let Err(fault) = write_entries(alloc, history, 0, 1, output) {
        return Err(fault);
    }
    let mut from = 1;
    for i in 0..counts.len() {
        let to = from + counts[i];
        if let Err(fault) = write_piece(
            alloc,
            config,
            requests[i].as_slice(),
            history,
            from,
            to,
            output,
        ) {
            return Err(fault);
        }
        from = to;
    }
    write_entries(alloc, history, from, end, output)
}

/// How a command ended, by why its requests stopped.
pub fn stopped_serving(end: Result<(), ServeStop>) -> Result<(), Stop>
    ensures { result ≡ stopped_serving end }
{
    match end {
        Ok(()) => Ok(()),
        Err(ServeStop::Off) => Err(Stop::PowerOff),
        Err(ServeStop::NoRoom) => Err(Stop::HistoryFull),
        Err(ServeStop::Memory) => Err(Stop::Memory),
    }
}

/// Writes the history of requests with their answers, and then its end or why they stopped.
pub fn write_served<K: Sink>(
    alloc: Global,
    config: &Config,
    requests: &[Bytes],
    counts: &[u32],
    run: Result<(), Stop>,
    history: &History,
    output: &mut K,
) -> Status
    requires some { HaveBytes requests.now }
    requires pieces { HasPieces requests.now counts.now history.now.entries }
    ensures text { WritesLines (status_of_run run) (lines_of_history config.now requests.now counts.now history.now.entries) (last_of run history.now.entries) (K.written output.old) (K.written output.new) result }
    ensures write_fault { result ≡ Status.WriteFault → Rose (K.faults output.old) (K.faults output.new) }
{
    if run == Err(Stop::Memory) {
        return Status::Memory;
    }
    if let Err(fault) = write_requests(alloc, config, requests, counts, history, output) {
        return fault.status();
    }
    match run {
        Ok(()) => write_end(alloc, history, output),
        Err(stop) => report(alloc, stop, output),
    }
}
