// The marks of a line.
ghost use Rattle.std.specs.Prelude.{◌≤◌, IfOk, IfSome};
ghost use Rattle.block_machine.specs.nv_base.Marks.{next_or};

use crate::words::{Parsed, Words};
use block_machine::block_config::read_content;
use block_machine::nv_base::{Bytes, Entry, Instance, Mark, Marks};
use std::alloc::{AllocError, Global};

/// A mark that the device stored.
pub fn read_wrote(alloc: Global, words: Words<'_>) -> Parsed<Entry> {
    let mut words = words;
    let instance = instance_of(words.next());
    let mark = read_mark(alloc, &mut words)?;
    Ok(Some(Entry::Wrote {
        instance,
        mark,
        ops: words.ops(),
    }))
}

/// The marks that a start-up found.
pub fn read_found(alloc: Global, words: Words<'_>) -> Parsed<Entry> {
    let mut words = words;
    let count = words.number();
    let marks = read_marks(alloc, &mut words, count)?;
    Ok(Some(Entry::Found {
        marks,
        ops: words.ops(),
    }))
}

/// The content that a text is; of a text that is none, no bytes.
pub fn content_of(alloc: Global, text: &str) -> Result<Bytes, AllocError> {
    match read_content(alloc, text.as_bytes())? {
        Some(bytes) => Ok(bytes),
        None => Bytes::zeros(alloc, 0),
    }
}

// The instance that a word is.
fn instance_of(word: &str) -> Instance {
    let (block, index) = word.split_once('.').unwrap_or((word, ""));
    Instance {
        block: block.parse::<u16>().unwrap_or(0),
        index: index.parse::<u8>().unwrap_or(0),
    }
}

// The mark that the next words are.
fn read_mark(alloc: Global, words: &mut Words<'_>) -> Result<Mark, AllocError> {
    match words.next() {
        "data" => Ok(Mark::Content(content_of(alloc, words.next())?)),
        "invalid" => Ok(Mark::Invalid),
        _ => Ok(Mark::Erased),
    }
}

// So many marks of instances, as far as they ascend and can be listed.
fn read_marks(alloc: Global, words: &mut Words<'_>, count: u64) -> Result<Marks, AllocError> {
    let mut marks = Marks::new(alloc);
    let mut least: u32 = 0;
    for _ in 0..count {
        let instance = instance_of(words.next());
        let mark = read_mark(alloc, words)?;
        match add_mark(&mut marks, least, instance, mark)? {
            Some(next) => least = next,
            None => break,
        }
    }
    Ok(marks)
}

// Adds the mark of an instance whose number isn't below the least, and gives the next least number.
#[tactic(auto, using(crate::proofs::Ascending::next_behind))]
fn add_mark(
    marks: &mut Marks,
    least: u32,
    instance: Instance,
    mark: Mark,
) -> Result<Option<u32>, AllocError>
    requires { next_or 0 marks.old ≤ least }
    ensures { IfOk result (λ r. IfSome r (λ next. next_or 0 marks.new ≤ next)) }
{
    let number = u32::from(instance.block) * 64 + u32::from(instance.index);
    if instance.block > 1023 || instance.index > 63 || !mark.is_stored() || number < least {
        return Ok(None);
    }
    marks.add(instance, mark)?;
    Ok(Some(number + 1))
}
