// The line of an answer.
ghost use Rattle.std.specs.Prelude.{◌≡◌, IfOk};
ghost use Rattle.uds_script.specs.Lines.{uds_line};

use std::alloc::{AllocError, Global};

/// The line of an answer, two digits a byte in lower case, with its newline.
pub fn uds_text(alloc: Global, answer: &[u8]) -> Result<Vec<u8>, AllocError>
    ensures { IfOk result (λ v. v.items ≡ uds_line answer.now) }
{
    let digits = hex::encode(alloc, answer)?;
    let mut text = Vec::new(alloc);
    text.extend_from_slice(b"uds ")?;
    text.extend_from_slice(digits.as_bytes())?;
    text.push(b'\n')?;
    Ok(text)
}
