// The record at a page.
ghost use Rattle.std.specs.Prelude.{◌≡◌, ◌≤◌, ◌+◌, ◌*◌, ◌^◌, length, true, MatchOption};
ghost use Rattle.fee_format.specs.Pages.{record_pages_of};
ghost use Rattle.fee_image.specs.RecordList.{Stops, Stands};
ghost use Rattle.fee_view.specs.View.{own_bank};
ghost use Rattle.fee_view.specs.Record.{rec_seen, rec_shown};

use crate::page::page_of;
use fee_format::{RecHead, RecordKind, gate_stands, pages_of, read_rec_head};
use nv_base::DeviceNumber;

/// A record as its bank shows it: the page of the bank where its header stands, its number and kind, its
/// count (0 in format 1), whether it is one of the bank's list, which each item of it is, whether its commit gate stands
/// open, and its content, a slice of the bank.
#[derive(Clone, Copy)]
pub struct Record<'a> {
    pub at: u32,
    pub number: DeviceNumber,
    pub kind: RecordKind,
    pub count: u32,
    pub trusted: bool,
    pub committed: bool,
    pub payload: &'a [u8],
}

/// The header of a record that stands in a bank, and whether its commit gate is open.
#[derive(Clone, Copy)]
pub struct Seen {
    pub head: RecHead,
    pub committed: bool,
}

/// What is seen of the record that stands at a page, unless the list stops there. `bank` begins with so many pages, of a bank
/// or of a piece of one.
#[inline(always)]
pub fn seen_at(bank: &[u8], page: u32, pages: u32, format: u8, at: u32) -> Option<Seen>
    requires low { 16 ≤ page }
    requires high { page ≤ 256 }
    requires whole { pages * page ≤ length bank.now }
    requires few { pages ≤ 2 ^ 22 }
    requires place { at ≤ pages }
    ensures { MatchOption result (Stops (own_bank page pages format) bank.now at) (λ s. Stands (own_bank page pages format) bank.now at (rec_seen (own_bank page pages format) bank.now at s)) }
{
    if (format != 1 && format != 2) || pages < at + 3 || !gate_stands(page_of(bank, page, at + 1)) {
        return None;
    }
    let head = read_rec_head(page_of(bank, page, at), format)?;
    let next = at + pages_of(head.length, page);
    if pages < next {
        return None;
    }
    let committed = gate_stands(page_of(bank, page, next - 1));
    Some(Seen { head, committed })
}

// That record with its content.
pub(crate) fn record_of<'a>(bank: &'a [u8], page: u32, at: u32, seen: Seen) -> Record<'a>
    requires low { 16 ≤ page }
    requires few { (at + record_pages_of seen.head.length page) * page ≤ length bank.now }
    requires small { length bank.now ≤ 2 ^ 22 }
    ensures shown { rec_shown result ≡ rec_seen (own_bank page 2 1) bank.now at seen }
    ensures trusted { result.trusted ≡ true }
{
    let from = (at as usize + 2) * page as usize;
    Record {
        at,
        number: seen.head.number,
        kind: seen.head.kind,
        count: seen.head.count,
        trusted: true,
        committed: seen.committed,
        payload: &bank[from..from + usize::from(seen.head.length)],
    }
}
