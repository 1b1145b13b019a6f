// Hexadecimal digits in either case.
ghost use Rattle.std.specs.Prelude.{◌≡◌, ◌*◌, length, max, unwrap_or, Some, None, if◌then◌else◌};
ghost use Rattle.std.specs.Result.{result_ok};
ghost use Rattle.hex.specs.Hex.{hex_digit_value, decode_of};

// The value of a digit, and 16 of what is none.
fn value(digit: u8) -> u8
    ensures { result ≡ unwrap_or (hex_digit_value digit) 16 }
{
    match digit {
        b'A'..=b'F' => digit - 55,
        b'a'..=b'f' => digit - 87,
        b'0'..=b'9' => digit - 48,
        _ => 16,
    }
}

fn greater(a: u8, b: u8) -> u8
    ensures { result ≡ max a b }
{
    if a < b { b } else { a }
}

/// Reads the bytes of pairs of digits. False where one of them is no digit; the bytes are any then. It goes on behind such a one, so
/// that the processor can read many at once.
pub fn read_digits(digits: &[u8], bytes: &mut [u8]) -> bool
    requires { length digits.now ≡ 2 * length bytes.old }
    ensures { result_ok (decode_of digits.now) ≡ (if result then Some bytes.new else None) }
{
    let mut greatest = 0;
    for i in 0..bytes.len() {
        let high = value(digits[2 * i]);
        let low = value(digits[2 * i + 1]);
        bytes[i] = high % 16 * 16 + low % 16;
        greatest = greater(greater(greatest, high), low);
    }
    greatest < 16
}
