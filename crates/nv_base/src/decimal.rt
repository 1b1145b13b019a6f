// Decimal numbers without sign and without leading zeros.
ghost use Rattle.std.specs.Prelude.{◌≡◌, ◌≤◌, ◌^◌, IfSome, IsTrue, MatchOption};
ghost use Rattle.std.specs.Char.{is_ascii_digit};
ghost use Rattle.std.specs.List.{list_all};
ghost use Rattle.std.specs.Str.Parse.{digits_value};
ghost use Rattle.nv_base.specs.Decimal.{is_numeral, decimal_number_of};

fn are_digits(text: &[u8]) -> bool
    ensures { result ≡ list_all is_ascii_digit text.now }
{
    text.iter().all(|b| b.is_ascii_digit())
}

// Whether these are the digits of a number, without leading zeros.
fn is_numeral(text: &[u8]) -> bool
    ensures { result ≡ is_numeral text.now }
{
    !text.is_empty() && (text[0] != b'0' || text.len() == 1) && are_digits(text)
}

fn parsed(text: &str) -> Option<u32>
    requires { IsTrue (is_numeral text.now) }
    ensures { MatchOption result (2 ^ 32 ≤ digits_value 10 text.now) (λ n. n ≡ digits_value 10 text.now) }
{
    text.parse::<u32>().ok()
}

// The number of these digits, where it is below 2^32.
fn value(text: &[u8]) -> Option<u32>
    requires { IsTrue (is_numeral text.now) }
    ensures { MatchOption result (2 ^ 32 ≤ digits_value 10 text.now) (λ n. n ≡ digits_value 10 text.now) }
{
    match std::str::from_utf8(text) {
        Ok(text) => parsed(text),
        Err(_) => None,
    }
}

/// The number within these bounds, both included, that a text spells in decimal without sign and without leading
/// zeros. None exactly where it spells none.
#[tactic(auto, unfolding(crate::specs::Decimal::decimal_number_of))]
pub fn decimal_number(text: &[u8], low: u32, high: u32) -> Option<u32>
    ensures number { result ≡ decimal_number_of low high text.now }
    ensures low { IfSome result (λ n. low ≤ n) }
    ensures high { IfSome result (λ n. n ≤ high) }
{
    if !is_numeral(text) {
        return None;
    }
    let number = value(text)?;
    (low <= number && number <= high).then_some(number)
}
