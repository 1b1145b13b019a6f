// Members of a JSON object, as a configuration has them.
ghost use Rattle.std.specs.Prelude.{◌≡◌, ◌≤◌, IfSome, false};
ghost use Rattle.serde_json.specs.View.{view};
ghost use Rattle.serde_json.specs.Find.{as_bool};
ghost use Rattle.block_config.specs.Field.{number_in, needed, if_given, shown};

use serde_json::Value;

/// The number that a value is, of digits alone and within bounds.
pub fn number_in(value: &Value, low: u32, high: u32) -> Option<u32>
    ensures value { result ≡ number_in low high (view value.now) }
    ensures bounds { IfSome result (λ n. (low ≤ n) × (n ≤ high)) }
{
    match value.as_u64() {
        Some(n) if u64::from(low) <= n && n <= u64::from(high) => Some(n as u32),
        _ => None,
    }
}

/// The number at a key, within bounds.
pub fn number_at(value: &Value, key: &str, low: u32, high: u32) -> Option<u32>
    ensures value { result ≡ needed key.now (number_in low high) (view value.now) }
    ensures bounds { IfSome result (λ n. (low ≤ n) × (n ≤ high)) }
{
    number_in(value.get(key)?, low, high)
}

/// The number that a value is, at most so much; where there is none, this one.
pub fn number_or(value: Option<&Value>, absent: u8, high: u8) -> Option<u8>
    ensures { result ≡ if_given absent (number_in 0 high) (shown value.entry) }
{
    match value {
        None => Some(absent),
        Some(member) => Some(number_in(member, 0, u32::from(high))? as u8),
    }
}

/// Whether a value is true or false; where there is none, false.
pub fn truth_or(value: Option<&Value>) -> Option<bool>
    ensures { result ≡ if_given false as_bool (shown value.entry) }
{
    match value {
        None => Some(false),
        Some(member) => member.as_bool(),
    }
}
