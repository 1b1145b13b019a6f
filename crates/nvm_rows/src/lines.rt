// The lines of a printed history.
use std::alloc::{AllocError, Global};

/// Whether a byte ends a line.
pub fn is_newline(byte: &u8) -> bool {
    *byte == b'\n'
}

/// Adds a line to a text.
pub fn add_line(text: &mut Vec<u8>, line: &str) -> Result<(), AllocError> {
    text.extend_from_slice(line.as_bytes())?;
    text.push(b'\n')?;
    Ok(())
}

/// A line without its newline, and without the number of operations that is its end.
pub fn without_operations(line: &str) -> &str {
    let (words, _) = line.rsplit_once(" ops ").unwrap_or((line, ""));
    words
}

/// How many entries a history has, which has a line for each of them and one more.
pub fn entries_in(output: &[u8]) -> u64 {
    let lines = output.split_inclusive(is_newline).count() as u64;
    lines.saturating_sub(1)
}

/// Its lines from an entry on, without their numbers of operations and but for the last one, each behind a bar.
pub fn words_from(alloc: Global, output: &str, from: u64) -> Result<String, AllocError> {
    let mut words = String::new(alloc);
    let count = entries_in(output.as_bytes());
    for (place, line) in output.split('\n').enumerate() {
        if (from..count).contains(&(place as u64)) {
            words.push_str(" | ")?;
            words.push_str(without_operations(line))?;
        }
    }
    Ok(words)
}
