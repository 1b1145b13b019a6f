// Bytes to a writer of std.
ghost use Rattle.std.specs.Prelude.{◌≤◌, length, take};
ghost use Rattle.std.specs.Io.KnownBytes.{Appends};

use std::io::{ErrorKind, Write};

/// Writes bytes until all are written or the writer fails, and gives how many were. An interrupted call is made again; a write that
/// takes none is a failure too.
pub fn write_out<W: Write>(writer: &mut W, bytes: &[u8]) -> usize
    ensures within { result ≤ length bytes.now }
    ensures written { Appends (W.contents writer.old) (W.contents writer.new) (take result bytes.now) }
{
    let mut at = 0;
    for _ in 0..u64::MAX {
        if at == bytes.len() {
            return at;
        }
        match writer.write(&bytes[at..]) {
            Ok(count) if count > 0 => at += count,
            Err(error) if error.kind() == ErrorKind::Interrupted => {}
            _ => return at,
        }
    }
    at
}
