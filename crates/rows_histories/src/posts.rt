// The lines of jobs that are taken in hand and that end.
use crate::codes::result_of;
use crate::marks::content_of;
use crate::words::{Parsed, Words};
use block_machine::block_config::Config;
use block_machine::nv_base::{Bytes, Entry, JobKind, Taken};
use std::alloc::Global;

/// A job that is taken in hand.
pub fn read_pick(alloc: Global, config: &Config, words: Words<'_>) -> Parsed<Entry> {
    let mut words = words;
    let block = words.block();
    let job = job_of(words.next());
    let taken = match job {
        JobKind::Write => read_taken(alloc, config, block, &mut words)?,
        _ => Some(Taken::Nothing),
    };
    match taken {
        Some(taken) => Ok(Some(Entry::Pick {
            block,
            job,
            taken,
            ops: words.ops(),
        })),
        None => Ok(None),
    }
}

// The job that a word is; of a word that is none, a read.
fn job_of(word: &str) -> JobKind {
    match word {
        "write" => JobKind::Write,
        "restore" => JobKind::Restore,
        "erase" => JobKind::Erase,
        "invalidate" => JobKind::Invalidate,
        "readall" => JobKind::ReadAll,
        "writeall" => JobKind::WriteAll,
        _ => JobKind::Read,
    }
}

// What a write takes.
fn read_taken(alloc: Global, config: &Config, block: u16, words: &mut Words<'_>) -> Parsed<Taken> {
    match words.next() {
        "refused" => Ok(Some(Taken::Refused {
            count: words.small(),
        })),
        "stale" => Ok(read_stale(config, block, words)),
        content => {
            let bytes = content_of(alloc, content)?;
            Ok(Some(Taken::Content {
                bytes,
                store: read_store(words),
            }))
        }
    }
}

// How many copies were tried isn't printed: it is the block's number of tries.
fn read_stale(config: &Config, block: u16, words: &mut Words<'_>) -> Option<Taken> {
    match config.block(block) {
        Some(desc) => Some(Taken::Stale {
            asked: words.number(),
            got: words.number(),
            count: desc.repeats.saturating_add(1),
        }),
        None => None,
    }
}

// The store that is named, or 0.
fn read_store(words: &mut Words<'_>) -> u64 {
    if words.passes("store ") {
        return words.number();
    }
    0
}

/// A job that ended.
pub fn read_post(alloc: Global, words: Words<'_>) -> Parsed<Entry> {
    let mut words = words;
    let block = words.block();
    let result = result_of(words.number());
    let given = read_given(alloc, &mut words)?;
    Ok(Some(Entry::Post {
        block,
        result,
        given,
        refused: read_refused(&mut words),
        ops: words.ops(),
    }))
}

// The content that was given, if one was.
fn read_given(alloc: Global, words: &mut Words<'_>) -> Parsed<Bytes> {
    if words.passes("data ") {
        return Ok(Some(content_of(alloc, words.next())?));
    }
    Ok(None)
}

// How many copies were refused, or 0.
fn read_refused(words: &mut Words<'_>) -> u8 {
    if words.passes("refused ") {
        return words.small();
    }
    0
}
