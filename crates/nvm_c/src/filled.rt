// A content that is copied to the caller.
ghost use Rattle.nvm_c.specs.Filled.{IsFilled};

/// Puts a content at the front, where there is room for it. Answers its size.
pub(crate) fn fill(content: &[u8], into: &mut [u8]) -> usize
    ensures { IsFilled content.now result into.old into.new }
{
    let size = content.len();
    if size <= into.len() {
        into[..size].copy_from_slice(content);
    }
    size
}
