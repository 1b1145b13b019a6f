// The history of callers beside each other, in an order that no schedule changes.
use crate::lines::without_operations;
use std::alloc::AllocGlobal;

// What a line tells of: a request of a caller, an entry of a block, or something else.
#[derive(Clone, Copy, PartialEq)]
enum Group {
    Caller(u64),
    Block(u64),
    Other,
}

/// The lines of a history without their numbers of operations: the requests of each caller, then the entries of each block, and
/// then the others, each in their order.
pub fn show_by_caller<R: Print + AllocGlobal>(rt: &R, text: &[u8]) -> anyhow::Result<()> {
    let text = str::from_utf8(text)?;
    for caller in 0..16 {
        show_group(rt, text, Group::Caller(caller))?;
    }
    for block in 0..513 {
        show_group(rt, text, Group::Block(block))?;
    }
    show_group(rt, text, Group::Other)
}

// The lines of a group, in their order.
fn show_group<R: Print + AllocGlobal>(rt: &R, text: &str, group: Group) -> anyhow::Result<()> {
    for line in text.split('\n') {
        if !line.is_empty() && group_of(line) == group {
            show_words(rt, line)?;
        }
    }
    Ok(())
}

fn show_words<R: Print + AllocGlobal>(rt: &R, line: &str) -> anyhow::Result<()> {
    let words = without_operations(line);
    println!(rt; "> {words}")?;
    Ok(())
}

fn group_of(line: &str) -> Group {
    let (word, rest) = line.split_once(' ').unwrap_or((line, ""));
    match word {
        "ask" => Group::Caller(first_number(rest)),
        "pick" | "wrote" | "post" => Group::Block(first_number(rest)),
        _ => Group::Other,
    }
}

// The number that a text begins with, before a space or a point.
fn first_number(text: &str) -> u64 {
    let (word, _) = text.split_once(' ').unwrap_or((text, ""));
    let (digits, _) = word.split_once('.').unwrap_or((word, ""));
    digits.parse::<u64>().unwrap_or(0)
}
