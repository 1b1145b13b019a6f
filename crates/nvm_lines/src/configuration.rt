// The configuration of a call: the first line of its input.
ghost use Rattle.std.specs.Prelude.{◌≡◌, Ok, Err, IfOk, IfErr, IfSome, OnOk};
ghost use Rattle.std.specs.Io.KnownBytes.{IsAtEnd};
ghost use Rattle.block_config.specs.Reading.{meaning_of};
ghost use Rattle.nvm_script.specs.Script.{first_line};
ghost use Rattle.nv_base.specs.Count.{Rose};
ghost use Rattle.nvm_lines.specs.Reading.{HasConfig, IsCheckStop, IsConfigStop};

use crate::input::read_input;
use crate::stop::Stop;
use block_config::{Config, ConfigFault, read};
use nv_streams::Source;
use nvm_script::first_line;
use std::alloc::Global;

/// The configuration that the first line of an input is.
pub fn read_config(alloc: Global, input: &[u8]) -> Result<Config, Stop>
    ensures ok { IfOk result (λ c. meaning_of (first_line input.now) ≡ Ok c) }
    ensures err { IfErr result (IsConfigStop (first_line input.now)) }
{
    match read(alloc, first_line(input)) {
        Ok(config) => Ok(config),
        Err(ConfigFault::Broken { rule, block }) => Err(Stop::BadConfig { rule, block }),
        Err(ConfigFault::Memory) => Err(Stop::Memory),
    }
}

/// The configuration that the first line of the input is, which is read to its end.
pub fn read_configuration<S: Source>(alloc: Global, input: &mut S) -> Result<Config, Stop>
    ensures ok { IfOk result (λ c. IfSome (S.left input.old) (λ bytes. HasConfig bytes c)) }
    ensures end { OnOk result (IsAtEnd (S.left input.new)) }
    ensures err { IfErr result (IsCheckStop (S.left input.old)) }
    ensures read_fault { result ≡ Err Stop.ReadFault → Rose (S.faults input.old) (S.faults input.new) }
{
    let bytes = read_input(alloc, input)?;
    let config = read_config(alloc, &bytes)?;
    Ok(config)
}
