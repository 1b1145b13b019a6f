// Record headers.
ghost use Rattle.std.specs.Prelude.{◌≡◌, ◌≤◌, ◌↔◌, ◌++◌, ◌-◌, length, replicate, IsTrue, MatchOption};
ghost use Rattle.fee_format.specs.declared.rec_head.RecHead.{RecHead};
ghost use Rattle.fee_format.specs.Formats.{IsFormat, IsCountIn, count_bytes};
ghost use Rattle.fee_format.specs.RecHead.{IsLegalRecHead, IsLengthOfKind, kind_byte, kind_in, rec_head_bytes, rec_head_page, IsRecHead, IsNoRecHead, count_in};

use crate::alike::is_alike;
use crate::formats::NEW_FORMAT;
use byteorder::{BigEndian, ByteOrder};
use nv_base::DeviceNumber;

/// What a record says of its instance: a content, that it is invalidated, or that it is erased.
#[derive(Clone, Copy, PartialEq, Eq)]
pub enum RecordKind {
    Content,
    Invalid,
    Erased,
}

/// The header of a record: the device number of its instance, its kind, the length of its content in bytes, 0 where it
/// has none, and the count of the writes of its instance, which format 2 has, and 0 in format 1.
#[derive(Clone, Copy)]
pub struct RecHead {
    pub number: DeviceNumber,
    pub kind: RecordKind,
    pub length: u16,
    pub count: u32,
}

/// The byte of a kind, as a header has it: 1 a content, 2 an invalidated instance, 3 an erased one.
pub fn kind_byte(kind: RecordKind) -> u8
    ensures { result ≡ kind_byte kind }
{
    match kind {
        RecordKind::Content => 1,
        RecordKind::Invalid => 2,
        RecordKind::Erased => 3,
    }
}

// The kind that a byte would be. Of a byte of none the header isn't the written form.
fn kind_in(byte: u8) -> RecordKind
    ensures { result ≡ kind_in byte }
{
    match byte {
        1 => RecordKind::Content,
        2 => RecordKind::Invalid,
        _ => RecordKind::Erased,
    }
}

fn is_counted(format: u8, count: u32) -> bool
    ensures { IsTrue result ↔ IsCountIn format count }
{
    format == NEW_FORMAT || count == 0
}

fn is_length_of_kind(kind: RecordKind, length: u16) -> bool
    ensures { IsTrue result ↔ IsLengthOfKind kind length }
{
    match kind {
        RecordKind::Content => 0 < length,
        RecordKind::Invalid | RecordKind::Erased => length == 0,
    }
}

fn is_legal(head: RecHead) -> bool
    ensures { IsTrue result ↔ IsLegalRecHead head }
{
    0 < head.number.0 && head.number.0 < 65535 && is_length_of_kind(head.kind, head.length)
}

// The four bytes of a count, which are blank in format 1.
fn count_bytes(format: u8, count: u32) -> [u8; 4]
    ensures { result ≡ count_bytes format count }
{
    let mut bytes = [255; 4];
    if format == NEW_FORMAT {
        BigEndian::write_u32(&mut bytes, count);
    }
    bytes
}

#[inline(always)]
fn bytes_of(head: RecHead, format: u8) -> [u8; 10]
    ensures { result ≡ rec_head_bytes format head }
{
    let [c3, c2, c1, c0] = count_bytes(format, head.count);
    let mut bytes = [0x52, kind_byte(head.kind), 0, 0, 0, 0, c3, c2, c1, c0];
    BigEndian::write_u16(&mut bytes[2..], head.number.0);
    BigEndian::write_u16(&mut bytes[4..], head.length);
    bytes
}

/// Writes a record header of a bank of a format, which fills the page.
pub fn write_rec_head(head: RecHead, format: u8, page: &mut [u8])
    requires size { 16 ≤ length page.old }
    requires format { IsFormat format }
    requires legal { IsLegalRecHead head }
    requires counted { IsCountIn format head.count }
    ensures { page.new ≡ rec_head_page format (length page.old) head }
{
    page[..10].copy_from_slice(&bytes_of(head, format));
    page[10..].fill(255);
}

// The count that a page has, if it is a header.
fn count_of(page: &[u8], format: u8) -> u32
    requires { 10 ≤ length page.now }
    ensures { result ≡ count_in format page.now }
{
    if format == NEW_FORMAT {
        BigEndian::read_u32(&page[6..])
    } else {
        0
    }
}

// The header that a page has, if it has one.
#[inline(always)]
fn fields_of(page: &[u8], format: u8) -> RecHead
    requires { 10 ≤ length page.now }
    ensures { (h : RecHead) → IsRecHead format (length page.now) page.now h → result ≡ h }
{
    RecHead {
        number: DeviceNumber(BigEndian::read_u16(&page[2..])),
        kind: kind_in(page[1]),
        length: BigEndian::read_u16(&page[4..]),
        count: count_of(page, format),
    }
}

// Whether the same ten bytes stand in both. Each is compared by itself: most of them were read where they are looked up.
#[inline(always)]
fn is_same(one: [u8; 10], other: [u8; 10]) -> bool
    ensures { IsTrue result ↔ (one ≡ other) }
{
    let [a, b, c, d, e, f, g, h, i, j] = one;
    let [k, l, m, n, o, p, q, r, s, t] = other;
    a == k && b == l && c == m && d == n && e == o && f == p && g == q && h == r && i == s && j == t
}

// Whether a page has these bytes, and is blank behind them.
#[inline(always)]
fn begins_with(page: &[u8], bytes: [u8; 10]) -> bool
    requires { 10 ≤ length page.now }
    ensures { IsTrue result ↔ (page.now ≡ bytes ++ replicate (length page.now - 10) 255) }
{
    match page.split_first_chunk::<10>() {
        Some((first, rest)) => is_same(*first, bytes) && is_alike::<6>(rest, 255),
        None => false,
    }
}

#[inline(always)]
fn has_head(page: &[u8], format: u8, head: RecHead) -> bool
    requires { 10 ≤ length page.now }
    ensures { IsTrue result ↔ IsRecHead format (length page.now) page.now head }
{
    is_legal(head) && is_counted(format, head.count) && begins_with(page, bytes_of(head, format))
}

// The header that a page of this format has, if it has one.
#[inline(always)]
fn head_in(page: &[u8], format: u8) -> Option<RecHead>
    requires { 10 ≤ length page.now }
    ensures { MatchOption result (IsNoRecHead format (length page.now) page.now) (λ h. IsRecHead format (length page.now) page.now h) }
{
    let head = fields_of(page, format);
    if has_head(page, format, head) {
        Some(head)
    } else {
        None
    }
}

/// Reads a record header from a page of any length, in a bank of a format. None exactly where the page is no header's
/// written form.
#[inline(always)]
pub fn read_rec_head(page: &[u8], format: u8) -> Option<RecHead>
    requires format { IsFormat format }
    ensures { MatchOption result (IsNoRecHead format (length page.now) page.now) (λ h. IsRecHead format (length page.now) page.now h) }
{
    if page.len() < 10 {
        return None;
    }
    if format == NEW_FORMAT {
        head_in(page, NEW_FORMAT)
    } else {
        head_in(page, format)
    }
}
