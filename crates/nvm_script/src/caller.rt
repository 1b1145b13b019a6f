// The caller that a line begins with.
ghost use Rattle.std.specs.Prelude.{◌≡◌, option_map};
ghost use Rattle.nvm_script.specs.Line.{begins_with_digit, caller_before, called_of};

use crate::cut::cut;
use crate::number::number_of;

fn begins_with_digit(line: &[u8]) -> bool
    ensures { result ≡ begins_with_digit line.now }
{
    !line.is_empty() && line[0].is_ascii_digit()
}

fn behind_space(caller: u8, rest: &[u8]) -> Option<(Option<u8>, &[u8])>
    ensures { option_map (λ x. (x.0, x.1.now)) result ≡ caller_before caller (Some rest.now) }
{
    match rest {
        [b' ', text @ ..] => Some((Some(caller), text)),
        _ => None,
    }
}

// The caller, where the line names one, and the rest of the line. None where what stands there is no caller.
#[tactic(auto, unfolding(crate::specs::Line::called_of))]
pub fn caller_of(line: &[u8]) -> Option<(Option<u8>, &[u8])>
    ensures { option_map (λ x. (x.0, x.1.now)) result ≡ called_of line.now }
{
    if !begins_with_digit(line) {
        return Some((None, line));
    }
    let (front, rest) = cut(line, b':');
    let Some(caller) = number_of(front, 0, 15) else {
        return None;
    };
    match rest {
        Some(rest) => behind_space(caller as u8, rest),
        None => None,
    }
}
