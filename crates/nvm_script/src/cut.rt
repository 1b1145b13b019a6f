// A text before and after a byte.
ghost use Rattle.std.specs.Prelude.{◌≡◌, ◌==◌, ◌+◌, ◌<◌, ◌≤◌, ◌∷◌, length, take, drop, position, option_copied, IfSome};
ghost use Rattle.nvm_script.specs.Cut.{cut_at, cut_lines};

use memchr::memchr;

#[tactic(auto, using(crate::proofs::Places::first_is_position))]
fn place_of(text: &[u8], at: u8) -> Option<usize>
    ensures { result ≡ position (λ b. b == at) text.now }
{
    memchr(at, text)
}

// What stands before the first such byte, and what after it; all of it, and None where there is no such byte.
#[tactic(auto, using(std::proofs::lemmas::List::take_rest))]
pub fn cut(text: &[u8], at: u8) -> (&[u8], Option<&[u8]>)
    ensures before { result.0.now ≡ (cut_at at text.now).0 }
    ensures after { option_copied result.1 ≡ (cut_at at text.now).1 }
    ensures lengths { IfSome result.1 (λ rest. length result.0.now + 1 + length rest.now ≡ length text.now) }
{
    match place_of(text, at) {
        Some(place) => (&text[..place], Some(&text[place + 1..])),
        None => (text, None),
    }
}

/// How many bytes the first line of a text has, its newline among them.
pub fn line_length(text: &[u8]) -> usize
    requires { 0 < length text.now }
    ensures some { 0 < result }
    ensures most { result ≤ length text.now }
    ensures first { cut_lines text.now ≡ take result text.now ∷ cut_lines (drop result text.now) }
{
    match memchr(b'\n', text) {
        Some(at) => at + 1,
        None => text.len(),
    }
}
