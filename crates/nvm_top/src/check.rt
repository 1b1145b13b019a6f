// The command `check`: whether the first line of the input is a configuration.
ghost use Rattle.std.specs.Prelude.{◌≡◌};
ghost use Rattle.nvm_flash.specs.nv_base.Count.{Rose};
ghost use Rattle.nvm_top.specs.Causes.{HasCauses};
ghost use Rattle.nvm_top.specs.Ends.{ChecksBy};
ghost use Rattle.nvm_top.specs.Measures.{IsMeasured};
ghost use Rattle.nvm_lines.specs.Output.{Writes};

use crate::measures::measures_line;
use nvm_flash::Config;
use nvm_lines::nv_streams::{Sink, Source};
use nvm_lines::{Status, put_line, read_configuration, report};
use std::alloc::Global;

/// The command behind its words.
pub(crate) fn check<S: Source, K: Sink>(alloc: Global, input: &mut S, output: &mut K) -> Status
    ensures by_input { Writes (ChecksBy (S.left input.old) (S.faults input.old) (S.faults input.new)) (K.written output.old) (K.written output.new) result }
    ensures causes { HasCauses result (S.faults input.old) (S.faults input.new) (K.faults output.old) (K.faults output.new) (S.left input.new) }
{
    match read_configuration(alloc, input) {
        Ok(config) => write_measures(alloc, &config, output),
        Err(stop) => report(alloc, stop, output),
    }
}

/// Writes the measures of a configuration, and gives Ok or the status of the fault in its place.
fn write_measures<K: Sink>(alloc: Global, config: &Config, output: &mut K) -> Status
    ensures line { Writes (IsMeasured config.now) (K.written output.old) (K.written output.new) result }
    ensures write_fault { result ≡ Status.WriteFault → Rose (K.faults output.old) (K.faults output.new) }
{
    let Ok(line) = measures_line(alloc, config) else {
        return Status::Memory;
    };
    match put_line(output, line.as_bytes()) {
        Ok(()) => Status::Ok,
        Err(fault) => fault.status(),
    }
}
