// How what a case wrote and left is printed.
use crate::lines::is_newline;
use std::alloc::AllocGlobal;

/// How it is said whether something came out the same.
pub fn same_or_not(is_same: bool) -> &'static str {
    if is_same {
        return "the same";
    }
    "something else"
}

/// The lines of a text, each behind `> `; a last one without its newline behind `>. `.
pub fn show_text<R: Print>(rt: &R, text: &[u8]) -> anyhow::Result<()> {
    for line in text.split_inclusive(is_newline) {
        show_line(rt, line)?;
    }
    Ok(())
}

fn show_line<R: Print>(rt: &R, line: &[u8]) -> anyhow::Result<()> {
    let (mark, line) = match line.strip_suffix(b"\n") {
        Some(line) => (">", line),
        None => (">.", line),
    };
    let line = str::from_utf8(line)?;
    println!(rt; "{mark} {line}")?;
    Ok(())
}

/// The size of a flash in bytes, and each sixteen bytes of it that aren't erased, behind their address.
pub fn show_flash<R: Print + AllocGlobal>(rt: &R, flash: &[u8]) -> anyhow::Result<()> {
    let size = flash.len();
    println!(rt; "flash {size}")?;
    for (i, row) in flash.chunks(16).enumerate() {
        if row.iter().any(|byte| *byte != 255) {
            show_row(rt, i.saturating_mul(16), row)?;
        }
    }
    Ok(())
}

fn show_row<R: Print + AllocGlobal>(rt: &R, address: usize, row: &[u8]) -> anyhow::Result<()> {
    let bytes = hex::encode(rt.alloc(), row)?;
    println!(rt; "at {address:04x} {bytes}")?;
    Ok(())
}
