// Pages that may stand before an open gate.
ghost use Rattle.std.specs.Prelude.{◌≡◌, ◌≤◌, ◌↔◌, length, IsTrue};
ghost use Rattle.fee_format.specs.SoundHead.{IsSoundHead, is_part, is_apart, may_grow_as, may_grow, grows_bank_head};

use crate::{NEW_FORMAT, OLD_FORMAT, read_bank_head};

fn is_part(byte: u8, of: u8) -> bool
    ensures { result ≡ is_part byte of }
{
    byte & of == byte
}

fn is_apart(byte: u8, other: u8) -> bool
    ensures { result ≡ is_apart byte other }
{
    byte & other == 0
}

// Whether it may grow a bank head of this format.
fn may_grow_as(format: u8, page: &[u8]) -> bool
    requires { 12 ≤ length page.now }
    ensures { result ≡ may_grow_as format page.now }
{
    is_part(page[0], 0x42)
        && is_part(page[1], format)
        && is_apart(page[2], page[8])
        && is_apart(page[3], page[9])
        && is_apart(page[4], page[10])
        && is_apart(page[5], page[11])
        && is_part(page[6], 0xbd)
        && is_part(page[7], 255 - format)
}

fn may_grow(page: &[u8]) -> bool
    requires { 12 ≤ length page.now }
    ensures { result ≡ may_grow page.now }
{
    may_grow_as(OLD_FORMAT, page) || may_grow_as(NEW_FORMAT, page)
}

fn grows_bank_head(page: &[u8]) -> bool
    ensures { result ≡ grows_bank_head page.now }
{
    page.len() >= 12 && may_grow(page)
}

/// Whether a page may come to stand before an open gate: a bank head, or a page of which a torn erase, that sets any
/// of its zero bits to one, makes none. Then no torn erase makes its bank stand.
pub fn is_sound_head(page: &[u8]) -> bool
    ensures { IsTrue result ↔ IsSoundHead page.now }
{
    match read_bank_head(page) {
        Some(_) => true,
        None => !grows_bank_head(page),
    }
}
