// What the words of a call ask for.
ghost use Rattle.std.specs.Prelude.{◌≡◌, IfOk, Some, map, option_map, string_bytes};
ghost use Rattle.nvm_words.specs.Fields.{shown, command_at};
ghost use Rattle.nvm_words.specs.Words.{is_word, are_words, command_named as kind_named, soak_named as soak_kind, command_of as command_by, works_on_flash, image_path as path_of};

use crate::fields::{Fields, read_fields};
use nv_base::decimal_number;
use std::alloc::{AllocError, Global};

/// One of the commands, `soak` with its seed and its count of rounds.
#[derive(Clone, Copy)]
pub enum CommandKind {
    Play,
    Run,
    Dump,
    Check,
    Soak { seed: u32, count: u32 },
    Uds,
}

fn is_word(word: &[u8]) -> bool
    ensures { result ≡ is_word word.now }
{
    !word.is_empty() && word[0] != b'-'
}

pub(crate) fn are_words(words: &[String]) -> bool
    ensures { result ≡ are_words (map string_bytes words.now) }
{
    for i in 0..words.len() {
        if !is_word(words[i].as_bytes()) {
            return false;
        }
    }
    true
}

fn command_named(word: &str) -> Option<CommandKind>
    ensures { result ≡ kind_named word.now }
{
    match word {
        "play" => Some(CommandKind::Play),
        "run" => Some(CommandKind::Run),
        "dump" => Some(CommandKind::Dump),
        "check" => Some(CommandKind::Check),
        "uds" => Some(CommandKind::Uds),
        _ => None,
    }
}

fn soak_named(word: &str, seed: &str, count: &str) -> Option<CommandKind>
    ensures { result ≡ soak_kind word.now seed.now count.now }
{
    if word != "soak" {
        return None;
    }
    let seed = decimal_number(seed.as_bytes(), 0, u32::MAX)?;
    let count = decimal_number(count.as_bytes(), 0, 10_000)?;
    Some(CommandKind::Soak { seed, count })
}

fn command_in(fields: &Fields<'_>) -> Option<CommandKind>
    ensures { result ≡ command_at (shown fields.now) }
{
    match (fields.third, fields.fourth) {
        (None, None) => command_named(fields.command),
        (Some(seed), Some(count)) => soak_named(fields.command, seed, count),
        _ => None,
    }
}

/// The command that the words ask for: `IMAGE play`, `IMAGE run`, `IMAGE dump`, `IMAGE check`, `IMAGE uds`, or
/// `IMAGE soak SEED COUNT`. None exactly where they ask for none.
pub fn command_of(alloc: Global, words: &[String]) -> Result<Option<CommandKind>, AllocError>
    ensures { IfOk result (λ c. c ≡ command_by (map string_bytes words.now)) }
{
    if !are_words(words) {
        return Ok(None);
    }
    match read_fields(alloc, words)? {
        Some(fields) => Ok(command_in(&fields)),
        None => Ok(None),
    }
}

// Whether a command works on the flash. `check` leaves it alone.
fn works_on_flash(command: Option<CommandKind>) -> bool
    ensures { result ≡ works_on_flash command }
{
    match command {
        None | Some(CommandKind::Check) => false,
        Some(_) => true,
    }
}

/// The path of the image file that the command of these words works on. None where they ask for no command, for one
/// over a flash in memory (`mem`), or for `check`, which leaves the flash alone.
pub fn image_path<'a>(alloc: Global, words: &'a [String]) -> Result<Option<&'a str>, AllocError>
    ensures { IfOk result (λ path. option_map (λ p. p.now) path ≡ path_of (map string_bytes words.now)) }
{
    let Some(image) = words.first() else {
        return Ok(None);
    };
    let image = image.as_str();
    if works_on_flash(command_of(alloc, words)?) && image != "mem" {
        return Ok(Some(image));
    }
    Ok(None)
}
