// Bytes of a page that are all alike.
ghost use Rattle.std.specs.Prelude.{◌≡◌, ◌≤◌, ◌↔◌, length, replicate, IsTrue};

use nv_base::all_are;

/// Whether each of these bytes has this value. As many as the shortest page has are compared at once, without a call.
#[inline(always)]
pub(crate) fn is_alike<const SHORTEST: usize>(bytes: &[u8], value: u8) -> bool
    requires { SHORTEST ≤ 16 }
    ensures { IsTrue result ↔ (bytes.now ≡ replicate (length bytes.now) value) }
{
    match bytes.split_first_chunk::<SHORTEST>() {
        Some((shortest, rest)) if rest.is_empty() => *shortest == [value; SHORTEST],
        _ => all_are(bytes, value),
    }
}
