// A script over a device in memory.
use crate::call::Called;
use crate::case::Case;
use crate::lines::{is_newline, without_operations};
use crate::memory::play_in_memory;
use std::alloc::{AllocError, AllocGlobal, Global};

/// Plays the script of a case over a device in memory, without its power cuts, and with these numbers of turns in its `turn`
/// steps and for the drains that a cut ends. It prints the history: each entry without the number of operations, behind
/// `=` where the call printed the same one at its place beside the offs, and else behind `~`.
pub fn show_plain<R: Print + AllocGlobal>(
    rt: &R,
    case: &Case,
    turns: &[u64],
    called: &Called,
) -> anyhow::Result<()> {
    let text = text_in_memory(rt.alloc(), &case.input, turns)?;
    show_lines(rt, str::from_utf8(&text)?, str::from_utf8(&called.output)?)
}

// The history of a script in memory.
fn text_in_memory(alloc: Global, input: &[u8], turns: &[u64]) -> anyhow::Result<Vec<u8>> {
    let input = steps_in_memory(alloc, input, turns)?;
    play_in_memory(alloc, &input)
}

// The lines of a history in memory, beside the text that the call printed.
fn show_lines<R: Print + AllocGlobal>(rt: &R, text: &str, printed: &str) -> anyhow::Result<()> {
    let mut printed = printed;
    for line in text.split('\n') {
        if line.is_empty() {
            continue;
        }
        let (other, more) = next_line(printed);
        show_beside(rt, without_operations(line), other)?;
        printed = more;
    }
    Ok(())
}

// An entry in memory, beside the words of the one that the call printed.
fn show_beside<R: Print + AllocGlobal>(rt: &R, words: &str, other: &str) -> anyhow::Result<()> {
    let mark = if words == other { "=" } else { "~" };
    println!(rt; "{mark} {words}")?;
    Ok(())
}

// The next line that isn't an off, without its operations, and what stands behind it.
fn next_line(text: &str) -> (&str, &str) {
    let (line, rest) = text.split_once('\n').unwrap_or((text, ""));
    if line.starts_with("off ") {
        let (line, rest) = rest.split_once('\n').unwrap_or((rest, ""));
        return (without_operations(line), rest);
    }
    (without_operations(line), rest)
}

// The lines of a script without its power cuts, and with other numbers of turns, as far as there are any.
fn steps_in_memory(alloc: Global, input: &[u8], turns: &[u64]) -> Result<Vec<u8>, AllocError> {
    let mut text = Vec::new(alloc);
    let mut turns = turns;
    let mut is_cut = false;
    for line in input.split_inclusive(is_newline) {
        if line.starts_with(b"cut ") {
            is_cut = true;
            continue;
        }
        match turns {
            [count, rest @ ..] if has_turns(line, is_cut) => {
                turns = rest;
                is_cut = false;
                let step = format!(in alloc; "turn {count}\n")?;
                text.extend_from_slice(step.as_bytes())?;
            }
            _ => text.extend_from_slice(line)?,
        }
    }
    Ok(text)
}

// Whether a line is a `turn` step, or a drain that a power cut ends.
fn has_turns(line: &[u8], is_cut: bool) -> bool {
    line.starts_with(b"turn ") || is_cut && line.starts_with(b"drain")
}
