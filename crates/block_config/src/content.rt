// A content as people write it.
ghost use Rattle.std.specs.Prelude.{◌≡◌, ◌≤◌, IfOk, IfSome, length, option_map};
ghost use Rattle.std.specs.List.{list_all};
ghost use Rattle.hex.specs.Hex.{is_hex_digit};
ghost use Rattle.block_config.specs.Content.{is_plain, plain_of, count_of, run_of, is_parted, content_of};

use crate::digits::read_digits;
use nv_base::{Bytes, decimal_number};
use std::alloc::{AllocError, Global};

/// The content that a text is: an even number of hexadecimal digits in either case, at least two; or two digits, `*`
/// and a count in decimal without leading zeros, for so many equal bytes. It has at most 4,096 bytes. None exactly
/// where the text is no content.
pub fn read_content(alloc: Global, text: &[u8]) -> Result<Option<Bytes>, AllocError>
    ensures { IfOk result (λ r. r ≡ content_of text.now) }
{
    if is_parted(text) {
        read_run(alloc, &text[..2], &text[3..])
    } else {
        read_plain(alloc, text)
    }
}

/// How many bytes the content has that a text is. It takes no memory.
pub fn content_len(text: &[u8]) -> Option<usize>
    ensures { result ≡ option_map (λ bytes. length bytes) (content_of text.now) }
{
    if is_parted(text) {
        if is_plain(&text[..2]) {
            count_of(&text[3..])
        } else {
            None
        }
    } else if is_plain(text) {
        Some(text.len() / 2)
    } else {
        None
    }
}

fn is_parted(text: &[u8]) -> bool
    ensures { result ≡ is_parted text.now }
{
    text.len() > 2 && text[2] == b'*'
}

fn is_plain(text: &[u8]) -> bool
    ensures { result ≡ is_plain text.now }
{
    text.len() >= 2 && text.len() <= 8192 && text.len() % 2 == 0 && are_hex_digits(text)
}

fn are_hex_digits(text: &[u8]) -> bool
    ensures { result ≡ list_all is_hex_digit text.now }
{
    text.iter().all(|digit| is_hex_digit(*digit))
}

fn is_hex_digit(digit: u8) -> bool
    ensures { result ≡ is_hex_digit digit }
{
    matches!(digit, b'A'..=b'F' | b'a'..=b'f' | b'0'..=b'9')
}

fn read_plain(alloc: Global, text: &[u8]) -> Result<Option<Bytes>, AllocError>
    ensures { IfOk result (λ r. r ≡ plain_of text.now) }
{
    if text.len() < 2 || text.len() > 8192 || text.len() % 2 != 0 {
        return Ok(None);
    }
    let mut bytes = vec![in alloc; 0; text.len() / 2]?;
    if !read_digits(text, &mut bytes) {
        return Ok(None);
    }
    Ok(Some(Bytes::from_vec(bytes)))
}

/// So many bytes of one value.
fn read_run(alloc: Global, pair: &[u8], count: &[u8]) -> Result<Option<Bytes>, AllocError>
    ensures { IfOk result (λ r. r ≡ run_of pair.now count.now) }
{
    let Some(bytes) = read_plain(alloc, pair)? else {
        return Ok(None);
    };
    let Some(count) = count_of(count) else {
        return Ok(None);
    };
    let byte = bytes.as_slice().first().copied().unwrap_or(0);
    let run = vec![in alloc; byte; count]?;
    Ok(Some(Bytes::from_vec(run)))
}

/// A count of 1 to 4,096.
#[tactic(auto, unfolding(crate::specs::Content::count_of))]
fn count_of(text: &[u8]) -> Option<usize>
    ensures value { result ≡ count_of text.now }
    ensures most { IfSome result (λ n. n ≤ 4096) }
{
    let count = decimal_number(text, 1, 4096)?;
    Some(count as usize)
}
