// What the words of a call over two flashes ask for.
ghost use Rattle.std.specs.Prelude.{◌≡◌, IfOk, map, option_map, string_bytes};
ghost use Rattle.nvm_words.specs.Fields.{shown, call_at};
ghost use Rattle.nvm_words.specs.Pair.{pair_command_named as kind_named, pair_call_of, path_named, told_call};

use crate::fields::{Fields, read_fields};
use crate::words::are_words;
use std::alloc::{AllocError, Global};

/// One of the commands over a flash and an EEPROM.
#[derive(Clone, Copy)]
pub enum PairCommand {
    Play,
    Run,
}

/// A command over a flash and an EEPROM, and the words of both images.
#[derive(Clone, Copy)]
pub struct PairCall<'a> {
    pub command: PairCommand,
    pub first: &'a str,
    pub second: &'a str,
}

fn pair_command_named(word: &str) -> Option<PairCommand>
    ensures { result ≡ kind_named word.now }
{
    match word {
        "play" => Some(PairCommand::Play),
        "run" => Some(PairCommand::Run),
        _ => None,
    }
}

fn call_in<'a>(fields: &Fields<'a>) -> Option<PairCall<'a>>
    ensures { option_map told_call result ≡ call_at (shown fields.now) }
{
    match (fields.third, fields.fourth) {
        (Some(second), None) => match pair_command_named(fields.command) {
            Some(command) => Some(PairCall {
                command,
                first: fields.image,
                second,
            }),
            None => None,
        },
        _ => None,
    }
}

/// The call over two flashes that the words ask for: `IMAGE play SECOND`, or `IMAGE run SECOND`. None exactly where they ask for
/// none; then they may be of a command over one flash.
pub fn pair_call<'a>(alloc: Global, words: &'a [String]) -> Result<Option<PairCall<'a>>, AllocError>
    ensures { IfOk result (λ c. option_map told_call c ≡ pair_call_of (map string_bytes words.now)) }
{
    if !are_words(words) {
        return Ok(None);
    }
    match read_fields(alloc, words)? {
        Some(fields) => Ok(call_in(&fields)),
        None => Ok(None),
    }
}

/// The path that the word of an image is. None for `mem`, a flash in memory.
pub fn path_named(image: &str) -> Option<&str>
    ensures { option_map (λ p. p.now) result ≡ path_named image.now }
{
    if image == "mem" {
        return None;
    }
    Some(image)
}
