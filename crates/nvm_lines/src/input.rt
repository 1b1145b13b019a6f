// Reading the input to its end.
ghost use Rattle.std.specs.Prelude.{◌≤◌, IfOk, IfErr, OnOk, vec_len};
ghost use Rattle.std.specs.Io.KnownBytes.{IsAtEnd};
ghost use Rattle.nvm_lines.specs.Input.{IsAll};
ghost use Rattle.nvm_lines.specs.Reading.{IsInputStop};

use crate::stop::Stop;
use nv_streams::{Source, SourceAnswer};
use std::alloc::Global;

/// The most bytes of input that are taken: 16 MiB.
pub const LIMIT: usize = 16_777_216;

/// All bytes of the input.
pub fn read_input<S: Source>(alloc: Global, input: &mut S) -> Result<Vec<u8>, Stop>
    ensures all { IfOk result (λ all. IsAll (S.left input.old) all.items) }
    ensures short { IfOk result (λ all. vec_len all ≤ LIMIT) }
    ensures end { OnOk result (IsAtEnd (S.left input.new)) }
    ensures err { IfErr result (IsInputStop (S.left input.old) (S.faults input.old) (S.faults input.new)) }
{
    let mut all = Vec::new(alloc);
    let mut buffer = [0; 4096];
    while all.len() <= LIMIT {
        match input.take(&mut buffer) {
            SourceAnswer::Failed => return Err(Stop::ReadFault),
            SourceAnswer::Got(0) => return Ok(all),
            SourceAnswer::Got(count) => all.extend_from_slice(&buffer[..count])?,
        }
    }
    Err(Stop::TooLong)
}
