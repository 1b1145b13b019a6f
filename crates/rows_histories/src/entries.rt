// The entry of a line.
ghost use Rattle.std.specs.Prelude.{◌≡◌, ◌++◌, ◌∷◌, [], IfOk, IfSome};
ghost use Rattle.nvm_script.specs.Lines.{entry_line};

use crate::asks::read_ask;
use crate::marks::{read_found, read_wrote};
use crate::posts::{read_pick, read_post};
use crate::words::{Parsed, Words};
use block_machine::block_config::Config;
use block_machine::nv_base::Entry;
use nvm_script::entry_text;
use std::alloc::Global;
use std::str::from_utf8;

/// The entry whose line, with its newline, this is, if it is one of an entry.
pub fn read_entry(alloc: Global, config: &Config, line: &[u8]) -> Parsed<Entry>
    ensures { IfOk result (λ r. IfSome r (λ e. entry_line e ≡ line.now)) }
{
    let Ok(text) = from_utf8(line) else {
        return Ok(None);
    };
    match entry_of(alloc, config, text.trim_end())? {
        Some(entry) => checked(alloc, entry, line),
        None => Ok(None),
    }
}

// An entry that has this line.
fn checked(alloc: Global, entry: Entry, line: &[u8]) -> Parsed<Entry>
    ensures { IfOk result (λ r. IfSome r (λ e. entry_line e ≡ line.now)) }
{
    let text = entry_text(alloc, &entry)?;
    if text.as_slice() == line {
        return Ok(Some(entry));
    }
    Ok(None)
}

// The entry that the words of a line may tell.
fn entry_of(alloc: Global, config: &Config, line: &str) -> Parsed<Entry> {
    let mut words = Words::of(line);
    match words.next() {
        "ask" => read_ask(alloc, config, words),
        "pick" => read_pick(alloc, config, words),
        "post" => read_post(alloc, words),
        "wrote" => read_wrote(alloc, words),
        "off" => Ok(Some(Entry::Off { ops: words.ops() })),
        "found" => read_found(alloc, words),
        _ => Ok(None),
    }
}
