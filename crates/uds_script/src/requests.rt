// The requests of a UDS gateway, a line each.
ghost use Rattle.std.specs.Prelude.{◌≡◌, ◌<◌, ◌≤◌, ◌+◌, ◌++◌, ◌||◌, [], length, is_some, option_to_list, IfOk, IfErr, OnOk};
ghost use Rattle.std.specs.List.{list_all};
ghost use Rattle.hex.specs.Hex.{is_hex_digit};
ghost use Rattle.nvm_script.specs.Script.{later_lines};
ghost use Rattle.uds_script.specs.Requests.{is_request as is_request_line, is_idle as is_idle_line, request_of, IsRequests, NamesWrongRequest};

use crate::RequestList;
use crate::line::{cut_line, without_return};
use hex::FromHexError;
use nv_base::{Bytes, bytes_of};
use nvm_script::ScriptFault;
use std::alloc::{AllocError, Global};

// The most digits of a request: two for each byte of a service, an identifier and a block's content.
const MOST_DIGITS: usize = 8_198;

fn is_hex_digit(digit: u8) -> bool
    ensures { result ≡ is_hex_digit digit }
{
    matches!(digit, b'A'..=b'F' | b'a'..=b'f' | b'0'..=b'9')
}

fn are_hex_digits(line: &[u8]) -> bool
    ensures { result ≡ list_all is_hex_digit line.now }
{
    line.iter().all(|digit| is_hex_digit(*digit))
}

fn is_request(line: &[u8]) -> bool
    ensures { result ≡ is_request_line line.now }
{
    are_hex_digits(line) && line.len() >= 2 && line.len() <= MOST_DIGITS && line.len() % 2 == 0
}

fn is_idle(line: &[u8]) -> bool
    ensures { result ≡ is_idle_line line.now }
{
    line.is_empty() || line[0] == b'#'
}

// The request of a line, where it has one.
fn request_in(alloc: Global, line: &[u8]) -> Result<Option<Bytes>, AllocError>
    ensures { IfOk result (λ r. r ≡ request_of line.now) }
{
    if !is_request(line) {
        return Ok(None);
    }
    match hex::decode(alloc, line) {
        Ok(bytes) => Ok(Some(bytes_of(alloc, &bytes)?)),
        Err(FromHexError::OutOfMemory) => Err(AllocError),
        Err(_) => Ok(None),
    }
}

// Adds the request of a line, where it has one. False where the line is wrong.
fn add_request(alloc: Global, line: &[u8], requests: &mut RequestList) -> Result<bool, AllocError>
    requires room { length requests.old < u32.MAX }
    ensures right { IfOk result (λ right. right ≡ (is_idle_line line.now || is_some (request_of line.now))) }
    ensures adds { OnOk result (requests.new ≡ requests.old ++ option_to_list (request_of line.now)) }
    ensures count { OnOk result (length requests.new ≤ length requests.old + 1) }
{
    match request_in(alloc, line)? {
        Some(request) => {
            requests.add(request)?;
            Ok(true)
        }
        None => Ok(is_idle(line)),
    }
}

/// The requests of the lines after the first, which is the configuration's, or the first line that neither has one nor does
/// nothing. A request is an even number of hexadecimal digits in either case, 1 to 4,099 bytes; an empty line and one that
/// begins with `#` do nothing.
pub fn read_requests(alloc: Global, input: &[u8]) -> Result<RequestList, ScriptFault>
    requires { length input.now < u32.MAX }
    ensures requests { IfOk result (λ requests. IsRequests 2 (later_lines input.now) requests) }
    ensures line { IfErr result (λ fault. NamesWrongRequest (later_lines input.now) fault) }
{
    let mut requests = RequestList::new(alloc);
    let (_, mut rest) = cut_line(input);
    let mut number = 1;
    while let Some(text) = rest {
        let (line, more) = cut_line(text);
        number += 1;
        rest = more;
        if !add_request(alloc, without_return(line), &mut requests)? {
            return Err(ScriptFault::Line { number });
        }
    }
    Ok(requests)
}
