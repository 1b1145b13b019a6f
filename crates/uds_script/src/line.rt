// Lines of an input.
ghost use Rattle.std.specs.Prelude.{◌≡◌, ◌==◌, ◌+◌, length, take, drop, position, option_copied, IfSome};
ghost use Rattle.nvm_script.specs.Cut.{cut_at};
ghost use Rattle.nvm_script.specs.Line.{without_return};

use memchr::memchr;

#[tactic(auto, using(nvm_script::proofs::Places::first_is_position))]
fn newline_in(text: &[u8]) -> Option<usize>
    ensures { result ≡ position (λ b. b == 10) text.now }
{
    memchr(b'\n', text)
}

// What stands before the first newline, and what after it; all of it, and None where there is none.
#[tactic(auto, using(std::proofs::lemmas::List::take_rest))]
pub fn cut_line(text: &[u8]) -> (&[u8], Option<&[u8]>)
    ensures before { result.0.now ≡ (cut_at 10 text.now).0 }
    ensures after { option_copied result.1 ≡ (cut_at 10 text.now).1 }
    ensures lengths { IfSome result.1 (λ rest. length result.0.now + 1 + length rest.now ≡ length text.now) }
{
    match newline_in(text) {
        Some(place) => (&text[..place], Some(&text[place + 1..])),
        None => (text, None),
    }
}

// A carriage return at a line's end is dropped.
pub fn without_return(line: &[u8]) -> &[u8]
    ensures { result.now ≡ without_return line.now }
{
    if !line.is_empty() && line[line.len() - 1] == b'\r' {
        return &line[..line.len() - 1];
    }
    line
}
