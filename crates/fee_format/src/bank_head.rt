// Bank heads.
ghost use Rattle.std.specs.Prelude.{◌≡◌, ◌≤◌, ◌↔◌, length, IsTrue, MatchOption};
ghost use Rattle.fee_format.specs.BankHead.{IsLegalBankHead, guarded_bytes, bank_head_page, IsBankHead, IsNoBankHead};
ghost use Rattle.fee_format.specs.declared.bank_head.BankHead.{BankHead};

use crate::formats::is_format;
use byteorder::{BigEndian, ByteOrder};
use nv_base::all_are;

/// The last generation of a bank, which no other follows.
pub const LAST_GENERATION: u32 = 4294967295;

/// The head of a bank: its format, which is 1 or 2, and its generation.
#[derive(Clone, Copy)]
pub struct BankHead {
    pub format: u8,
    pub generation: u32,
}

fn bytes_of(head: BankHead) -> [u8; 12]
    ensures { result ≡ guarded_bytes head }
{
    let mut generation = [0; 4];
    BigEndian::write_u32(&mut generation, head.generation);
    let [g3, g2, g1, g0] = generation;
    [
        0x42,
        head.format,
        g3,
        g2,
        g1,
        g0,
        255 - 0x42,
        255 - head.format,
        255 - g3,
        255 - g2,
        255 - g1,
        255 - g0,
    ]
}

/// Writes a bank head, which fills the page.
pub fn write_bank_head(head: BankHead, page: &mut [u8])
    requires size { 16 ≤ length page.old }
    requires legal { IsLegalBankHead head }
    ensures { page.new ≡ bank_head_page (length page.old) head }
{
    page[..12].copy_from_slice(&bytes_of(head));
    page[12..].fill(255);
}

// The head that a page has, if it has one.
fn fields_of(page: &[u8]) -> BankHead
    requires { 12 ≤ length page.now }
    ensures { (h : BankHead) → IsBankHead (length page.now) page.now h → result ≡ h }
{
    BankHead {
        format: page[1],
        generation: BigEndian::read_u32(&page[2..]),
    }
}

fn has_head(page: &[u8], head: BankHead) -> bool
    requires { 12 ≤ length page.now }
    ensures { IsTrue result ↔ IsBankHead (length page.now) page.now head }
{
    is_format(head.format) && &page[..12] == bytes_of(head).as_slice() && all_are(&page[12..], 255)
}

/// Reads a bank head from a page of any length. None exactly where the page is no bank head's written form.
pub fn read_bank_head(page: &[u8]) -> Option<BankHead>
    ensures { MatchOption result (IsNoBankHead (length page.now) page.now) (λ h. IsBankHead (length page.now) page.now h) }
{
    if page.len() < 12 {
        return None;
    }
    let head = fields_of(page);
    if has_head(page, head) {
        Some(head)
    } else {
        None
    }
}
