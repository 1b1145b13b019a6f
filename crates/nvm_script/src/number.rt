// The number that a field spells.
ghost use Rattle.std.specs.Prelude.{◌≡◌, ◌≤◌, ◌&&◌, ◌∷◌, [], nat_le, IfSome, Some, None, if◌then◌else◌};
ghost use Rattle.nv_base.specs.Decimal.{decimal_number_of};

use nv_base::decimal_number;

fn within(number: u32, low: u32, high: u32) -> Option<u32>
    ensures number { result ≡ (if nat_le low number && nat_le number high then Some number else None) }
    ensures low { IfSome result (λ n. low ≤ n) }
    ensures high { IfSome result (λ n. n ≤ high) }
{
    (low <= number && number <= high).then_some(number)
}

#[tactic(auto, using(crate::proofs::Numerals::number_of_one))]
fn of_one(one: u8, low: u32, high: u32) -> Option<u32>
    requires digit { (48 ≤ one) × (one ≤ 57) }
    ensures number { result ≡ decimal_number_of low high (one ∷ []) }
    ensures low { IfSome result (λ n. low ≤ n) }
    ensures high { IfSome result (λ n. n ≤ high) }
{
    within(u32::from(one - b'0'), low, high)
}

#[tactic(auto, using(crate::proofs::Numerals::number_of_two))]
fn of_two(ten: u8, one: u8, low: u32, high: u32) -> Option<u32>
    requires first { (49 ≤ ten) × (ten ≤ 57) }
    requires second { (48 ≤ one) × (one ≤ 57) }
    ensures number { result ≡ decimal_number_of low high (ten ∷ one ∷ []) }
    ensures low { IfSome result (λ n. low ≤ n) }
    ensures high { IfSome result (λ n. n ≤ high) }
{
    within(
        10 * u32::from(ten - b'0') + u32::from(one - b'0'),
        low,
        high,
    )
}

// The number within these bounds, both included, that the text spells in decimal without sign and without leading zeros. Most have one
// digit or two.
pub fn number_of(text: &[u8], low: u32, high: u32) -> Option<u32>
    ensures number { result ≡ decimal_number_of low high text.now }
    ensures low { IfSome result (λ n. low ≤ n) }
    ensures high { IfSome result (λ n. n ≤ high) }
{
    match text {
        [b'0'..=b'9'] => of_one(text[0], low, high),
        [b'1'..=b'9', b'0'..=b'9'] => of_two(text[0], text[1], low, high),
        _ => decimal_number(text, low, high),
    }
}
