// Hexadecimal digits, many at once.
ghost use Rattle.std.specs.Prelude.{◌≡◌, ◌<◌, length, slice_index};
ghost use Rattle.hex.specs.Hex.{encode_lower, lower_digits};

/// The bytes whose digits are made at once.
pub const PIECE: usize = 64;

/// Their digits.
pub const PIECE_DIGITS: usize = 128;

// The digit of a value. It looks up no table, so that the processor can make many at once.
fn digit(value: u8) -> u8
    requires { value < 16 }
    ensures { result ≡ slice_index lower_digits value }
{
    if value < 10 { value + 48 } else { value + 87 }
}

/// Two digits for each byte of a piece, in lower case.
pub fn digits_of(bytes: &[u8]) -> [u8; PIECE_DIGITS]
    requires { length bytes.now ≡ PIECE }
    ensures { result ≡ encode_lower bytes.now }
{
    let mut digits = [0; PIECE_DIGITS];
    for i in 0..PIECE {
        digits[2 * i] = digit(bytes[i] / 16);
        digits[2 * i + 1] = digit(bytes[i] % 16);
    }
    digits
}
