// What operations do to bytes in their places.
ghost use Rattle.std.specs.Prelude.{◌≡◌, ◌≤◌, ◌+◌, length};
ghost use Rattle.std.specs.Mem.Slots.{slots_items, slots_len, IsFull};
ghost use Rattle.fls_model.specs.Bytes.{piece, and_bytes, AreBytes};
ghost use Rattle.fls_model.specs.Op.{after_op, MayLeave, Erase};
ghost use Rattle.fls_model.specs.Step.{programs};

use core::slots::Slots;

// Tells proofs that bytes are below 256. (The loop has no effect, so that none is left of it in a program.)
pub fn below_256(places: &Slots<u8>)
    requires { IsFull places.now }
    ensures { AreBytes (slots_items places.now) }
{
    for i in 0..places.len() {
        let _byte = *places.get(i);
    }
}

// Copies a piece of the bytes.
pub fn copy_out(places: &Slots<u8>, at: usize, into: &mut [u8])
    requires full { IsFull places.now }
    requires within { at + length into.old ≤ slots_len places.now }
    ensures { into.new ≡ piece at (length into.old) (slots_items places.now) }
{
    for i in 0..into.len() {
        into[i] = *places.get(at + i);
    }
}

// A piece of the bytes, with the bits of a page that are zero there cleared.
fn and_out(places: &Slots<u8>, at: usize, page: &[u8], into: &mut [u8])
    requires full { IsFull places.now }
    requires within { at + length page.now ≤ slots_len places.now }
    requires room { length into.old ≡ length page.now }
    ensures { into.new ≡ and_bytes (piece at (length page.now) (slots_items places.now)) page.now }
{
    for i in 0..page.len() {
        into[i] = *places.get(at + i) & page[i];
    }
}

// Clears the bits of a page that are zero in `page`.
pub fn program_in(places: Slots<u8>, at: usize, page: &[u8]) -> Slots<u8>
    requires full { IsFull places }
    requires within { at + length page.now ≤ slots_len places }
    requires small { length page.now ≤ 256 }
    ensures full { IsFull result }
    ensures done { slots_items result ≡ after_op (programs at page.now) (slots_items places) }
    ensures within { MayLeave (programs at page.now) (slots_items places) (slots_items result) }
    ensures size { length (slots_items result) ≡ length (slots_items places) }
    ensures bytes { AreBytes (slots_items result) }
{
    let mut buffer = [0u8; 256];
    let both = &mut buffer[..page.len()];
    and_out(&places, at, page, both);
    let mut places = places;
    places.copy_in(at, both);
    below_256(&places);
    places
}

// Puts 0xFF into a range of places.
fn fill_blank(places: Slots<u8>, at: usize, count: usize) -> Slots<u8>
    requires full { IsFull places }
    requires within { at + count ≤ slots_len places }
    ensures full { IsFull result }
    ensures done { slots_items result ≡ after_op (Erase at count) (slots_items places) }
    ensures size { length (slots_items result) ≡ length (slots_items places) }
{
    let mut places = places;
    for i in 0..count {
        places.copy_in(at + i, &[255]);
    }
    places
}

// Sets all bits of a sector.
pub fn erase_in(places: Slots<u8>, at: usize, count: usize) -> Slots<u8>
    requires full { IsFull places }
    requires within { at + count ≤ slots_len places }
    ensures full { IsFull result }
    ensures done { slots_items result ≡ after_op (Erase at count) (slots_items places) }
    ensures within { MayLeave (Erase at count) (slots_items places) (slots_items result) }
    ensures size { length (slots_items result) ≡ length (slots_items places) }
    ensures bytes { AreBytes (slots_items result) }
{
    below_256(&places);
    let places = fill_blank(places, at, count);
    below_256(&places);
    places
}
