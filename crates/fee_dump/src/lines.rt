// The lines of a dump, each with its newline.
ghost use Rattle.std.specs.Prelude.{◌≡◌, IfOk, string_bytes};
ghost use Rattle.fee_view.specs.Record.{rec_shown};
ghost use Rattle.fee_dump.specs.Dump.{commit_text, numbers_line as numbers_text, counted_text, record_line as record_text, head_line as head_text, none_line as none_text, tail_line as tail_text, active_line as active_text};

use fee_format::{BankHead, kind_byte};
use fee_view::Record;
use std::alloc::{AllocError, Global};

fn commit_word(committed: bool) -> &'static str
    ensures { result.now ≡ commit_text committed }
{
    if committed { "committed" } else { "abandoned" }
}

fn numbers_line(
    alloc: Global,
    at: u32,
    number: u16,
    kind: u8,
    length: usize,
    commit: &str,
) -> Result<String, AllocError>
    ensures { IfOk result (λ t. string_bytes t ≡ numbers_text at number kind length commit.now) }
{
    format!(in alloc; "at {at} number {number} kind {kind} length {length} {commit}\n")
}

fn counted(alloc: Global, count: u32, commit: &str) -> Result<String, AllocError>
    ensures { IfOk result (λ t. string_bytes t ≡ counted_text count commit.now) }
{
    format!(in alloc; "count {count} {commit}")
}

/// Of a record: the page of its header, what the header says in the bank's format, and whether it is committed.
pub(crate) fn record_line(
    alloc: Global,
    format: u8,
    shown: &Record<'_>,
) -> Result<String, AllocError>
    ensures { IfOk result (λ t. string_bytes t ≡ record_text format (rec_shown shown.now)) }
{
    let commit = commit_word(shown.committed);
    let kind = kind_byte(shown.kind);
    let length = shown.payload.len();
    if format != 2 {
        return numbers_line(alloc, shown.at, shown.number.0, kind, length, commit);
    }
    let counted = counted(alloc, shown.count, commit)?;
    numbers_line(
        alloc,
        shown.at,
        shown.number.0,
        kind,
        length,
        counted.as_str(),
    )
}

/// Of a bank that stands with this head.
pub(crate) fn head_line(alloc: Global, bank: u32, head: BankHead) -> Result<String, AllocError>
    ensures { IfOk result (λ t. string_bytes t ≡ head_text bank head) }
{
    let format = head.format;
    let generation = head.generation;
    format!(in alloc; "bank {bank} format {format} generation {generation}\n")
}

/// Of a bank that doesn't stand.
pub(crate) fn none_line(alloc: Global, bank: u32) -> Result<String, AllocError>
    ensures { IfOk result (λ t. string_bytes t ≡ none_text bank) }
{
    format!(in alloc; "bank {bank} none\n")
}

/// Of a bank's tail.
pub(crate) fn tail_line(blank: bool) -> &'static str
    ensures { result.now ≡ tail_text blank }
{
    if blank { "tail blank\n" } else { "tail used\n" }
}

/// Of the active bank.
pub(crate) fn active_line(
    alloc: Global,
    active: Option<(u32, BankHead)>,
) -> Result<String, AllocError>
    ensures { IfOk result (λ t. string_bytes t ≡ active_text active) }
{
    match active {
        Some((bank, _)) => format!(in alloc; "active {bank}\n"),
        None => String::from_str(alloc, "active none\n"),
    }
}
