// A bank that stands.
ghost use Rattle.std.specs.Prelude.{◌≡◌, ◌≤◌, ◌*◌, ◌/◌, ◌%◌, ◌↔◌, length, IsTrue, IfSome, MatchOption};
ghost use Rattle.nv_base.specs.Geometry.{IsPageSize};
ghost use Rattle.fee_image.specs.RecordList.{StandsAs, StandsNot, IsTailBlank, records_of, end_of};
ghost use Rattle.fee_view.specs.View.{own_bank, bank_of, IsView};
ghost use Rattle.fee_view.specs.Record.{records_in};

use crate::Records;
use crate::page::page_of;
use crate::record::seen_at;
use fee_format::{BankHead, gate_stands, pages_of, read_bank_head};
use nv_base::all_are;
use std::marker::Model;

/// A bank that stands, over bytes that it borrows. Contracts see the bytes, the size of a page, how many pages there
/// are, and the head.
#[derive(Drop)]
pub struct BankView<'a> {
    bytes: &'a [u8],
    page: u32,
    pages: u32,
    head: BankHead,
}

impl<'a> Model for BankView<'a> {
    ghost use Rattle.fee_view.specs.View.{View, IsView};

    ghost Value = { View };

    ghost view = { λ v. record { bytes = v.bytes.now; page = v.page; pages = v.pages; head = v.head } };

    ghost invariant = { λ v. IsView (record { bytes = v.bytes.now; page = v.page; pages = v.pages; head = v.head }) };
}

impl<'a> BankView<'a> {
    /// The bank of these bytes, in pages of so many. None exactly where it doesn't stand: page 0 is no bank head, or
    /// page 1 no open gate.
    pub fn of(bank: &'a [u8], page: u32) -> Option<BankView<'a>>
        requires page { IsPageSize page }
        requires whole { length bank.now % page ≡ 0 }
        requires two { 2 * page ≤ length bank.now }
        requires most { length bank.now ≤ 4194304 }
        ensures stands { MatchOption result (StandsNot (own_bank page 2 1) bank.now) (λ v. StandsAs (own_bank page 2 1) bank.now v.head) }
        ensures view { IfSome result (λ v. v ≡ record { bytes = bank.now; page = page; pages = length bank.now / page; head = v.head }) }
    {
        let head = read_bank_head(page_of(bank, page, 0))?;
        if !gate_stands(page_of(bank, page, 1)) {
            return None;
        }
        let pages = (bank.len() / page as usize) as u32;
        Some(BankView {
            bytes: bank,
            page,
            pages,
            head,
        })
    }

    /// The bank's head.
    pub fn head(&self) -> BankHead
        ensures head { result ≡ self.now.head }
        ensures view { IsView self.now }
    {
        self.head
    }

    /// The records, in order.
    pub fn records(&self) -> Records<'a>
        ensures all { records_in result ≡ records_of (bank_of self.now) self.now.bytes }
        ensures bank { result ≡ record { bytes = self.now.bytes; bank = bank_of self.now; at = 2 } }
    {
        Records {
            bytes: self.bytes,
            page: self.page,
            pages: self.pages,
            format: self.head.format,
            at: 2,
        }
    }

    /// The page behind the last record.
    pub fn end_page(&self) -> u32
        ensures end { result ≡ end_of (bank_of self.now) self.now.bytes }
        ensures low { 2 ≤ result }
        ensures high { result ≤ self.now.pages }
    {
        let mut at = 2;
        while let Some(seen) = seen_at(self.bytes, self.page, self.pages, self.head.format, at) {
            at += pages_of(seen.head.length, self.page);
        }
        at
    }

    /// Whether all pages behind the last record are blank.
    pub fn tail_blank(&self) -> bool
        ensures { IsTrue result ↔ IsTailBlank (bank_of self.now) self.now.bytes (end_of (bank_of self.now) self.now.bytes) }
    {
        self.blank_from(self.end_page())
    }

    /// Whether all pages from one on are blank.
    pub fn blank_from(&self, page: u32) -> bool
        requires { page ≤ self.now.pages }
        ensures { IsTrue result ↔ IsTailBlank (bank_of self.now) self.now.bytes page }
    {
        is_tail_blank(self.bytes, self.page, self.pages, page)
    }
}

/// Whether of so many pages all from one on are blank.
pub fn is_tail_blank(bank: &[u8], page: u32, pages: u32, end: u32) -> bool
    requires whole { pages * page ≤ length bank.now }
    requires inside { end ≤ pages }
    ensures { IsTrue result ↔ IsTailBlank (own_bank page pages 1) bank.now end }
{
    let from = end as usize * page as usize;
    let to = pages as usize * page as usize;
    all_are(&bank[from..to], 255)
}
