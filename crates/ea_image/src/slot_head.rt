// Heads of slots.
ghost use Rattle.std.specs.Prelude.{◌≡◌, ◌≤◌, ◌↔◌, ◌++◌, ◌-◌, length, replicate, IsTrue, MatchOption};
ghost use Rattle.fee_format.specs.RecHead.{IsLengthOfKind, kind_in};
ghost use Rattle.fee_format.specs.Guard.{guarded};
ghost use Rattle.ea_image.specs.SlotHead.{IsLegalSlotHead, slot_head_bytes, slot_head_page, IsSlotHead, IsNoSlotHead};
ghost use Rattle.ea_image.specs.declared.slot_head.SlotHead.{SlotHead};

use byteorder::{BigEndian, ByteOrder};
use fee_format::{RecordKind, kind_byte};
use nv_base::all_are;

/// The last sequence of a slot, which no other follows.
pub const LAST_SEQUENCE: u32 = 4294967295;

/// The head of a slot: what it says of its instance, the length of its content in bytes, 0 where it has none, and its
/// sequence, which counts the writes of the instance.
#[derive(Clone, Copy)]
pub struct SlotHead {
    pub kind: RecordKind,
    pub length: u16,
    pub sequence: u32,
}

fn bytes_of(head: SlotHead) -> [u8; 16]
    ensures { result ≡ guarded (slot_head_bytes head) }
{
    let mut length = [0; 2];
    BigEndian::write_u16(&mut length, head.length);
    let [l1, l0] = length;
    let mut sequence = [0; 4];
    BigEndian::write_u32(&mut sequence, head.sequence);
    let [s3, s2, s1, s0] = sequence;
    let kind = kind_byte(head.kind);
    [
        0x45,
        kind,
        l1,
        l0,
        s3,
        s2,
        s1,
        s0,
        255 - 0x45,
        255 - kind,
        255 - l1,
        255 - l0,
        255 - s3,
        255 - s2,
        255 - s1,
        255 - s0,
    ]
}

/// Writes the head of a slot, which fills the page.
pub fn write_slot_head(head: SlotHead, page: &mut [u8])
    requires size { 16 ≤ length page.old }
    requires legal { IsLegalSlotHead head }
    ensures { page.new ≡ slot_head_page (length page.old) head }
{
    page[..16].copy_from_slice(&bytes_of(head));
    page[16..].fill(255);
}

// The kind that a byte would be. Of a byte of none the head isn't the written form.
fn kind_in(byte: u8) -> RecordKind
    ensures { result ≡ kind_in byte }
{
    match byte {
        1 => RecordKind::Content,
        2 => RecordKind::Invalid,
        _ => RecordKind::Erased,
    }
}

fn is_legal(head: SlotHead) -> bool
    ensures { IsTrue result ↔ IsLegalSlotHead head }
{
    match head.kind {
        RecordKind::Content => 0 < head.length,
        RecordKind::Invalid | RecordKind::Erased => head.length == 0,
    }
}

// The head that a page has, if it has one.
fn fields_of(page: &[u8]) -> SlotHead
    requires { 16 ≤ length page.now }
    ensures { (h : SlotHead) → IsSlotHead (length page.now) page.now h → result ≡ h }
{
    SlotHead {
        kind: kind_in(page[1]),
        length: BigEndian::read_u16(&page[2..]),
        sequence: BigEndian::read_u32(&page[4..]),
    }
}

// Whether a page has these bytes, and is blank behind them.
fn begins_with(page: &[u8], bytes: &[u8]) -> bool
    requires page { 16 ≤ length page.now }
    requires bytes { length bytes.now ≡ 16 }
    ensures { IsTrue result ↔ (page.now ≡ bytes.now ++ replicate (length page.now - 16) 255) }
{
    &page[..16] == bytes && all_are(&page[16..], 255)
}

fn has_head(page: &[u8], head: SlotHead) -> bool
    requires { 16 ≤ length page.now }
    ensures { IsTrue result ↔ IsSlotHead (length page.now) page.now head }
{
    is_legal(head) && begins_with(page, &bytes_of(head))
}

/// Reads the head of a slot from a page of any length. None exactly where the page is no head's written form.
pub fn read_slot_head(page: &[u8]) -> Option<SlotHead>
    ensures { MatchOption result (IsNoSlotHead (length page.now) page.now) (λ h. IsSlotHead (length page.now) page.now h) }
{
    if page.len() < 16 {
        return None;
    }
    let head = fields_of(page);
    if has_head(page, head) {
        Some(head)
    } else {
        None
    }
}
