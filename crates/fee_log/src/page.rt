// The page that is due.
ghost use Rattle.std.specs.Prelude.{◌≡◌, ◌≤◌, ◌<◌, ◌+◌, ◌*◌, ◌^◌, length, take, drop};
ghost use Rattle.std.specs.List.{All};
ghost use Rattle.fee_format.specs.Pages.{gate_page};
ghost use Rattle.fee_format.specs.RecHead.{IsLegalRecHead};
ghost use Rattle.fee_format.specs.RecordPages.{filled, body_page, record_page};

use fee_format::{NEW_FORMAT, RecHead, pages_of, write_gate, write_rec_head};

fn piece_of(body: &[u8], from: usize, count: usize) -> &[u8]
    ensures { result.now ≡ take count (drop from body.now) }
{
    if body.len() <= from {
        &[]
    } else if count < body.len() - from {
        &body[from..from + count]
    } else {
        &body[from..]
    }
}

fn write_filled(piece: &[u8], page: &mut [u8])
    requires { length piece.now ≤ length page.old }
    ensures { page.new ≡ filled (length page.old) piece.now }
{
    page[..piece.len()].copy_from_slice(piece);
    page[piece.len()..].fill(255);
}

fn write_body(body: &[u8], at: usize, page: &mut [u8])
    requires { at * length page.old < 2 ^ 32 }
    ensures { page.new ≡ body_page (length page.old) body.now at }
{
    write_filled(piece_of(body, at * page.len(), page.len()), page);
}

fn write_page(head: RecHead, body: &[u8], done: u32, page: &mut [u8])
    requires low { 16 ≤ length page.old }
    requires high { length page.old ≤ 256 }
    requires legal { IsLegalRecHead head }
    requires done { done < 2 ^ 22 }
    ensures { page.new ≡ record_page (length page.old) head body.now done }
{
    let pages = pages_of(head.length, page.len() as u32);
    if done == 0 {
        write_rec_head(head, NEW_FORMAT, page);
    } else if done == 1 || done + 1 == pages {
        write_gate(page);
    } else {
        write_body(body, done as usize - 2, page);
    }
}

/// Fills the first bytes of a buffer with a page of a record, of which so many stand before it.
pub(crate) fn fill_page(head: RecHead, body: &[u8], done: u32, size: usize, buffer: &mut [u8])
    requires whole { length buffer.old ≡ 256 }
    requires low { 16 ≤ size }
    requires high { size ≤ 256 }
    requires legal { IsLegalRecHead head }
    requires done { done < 2 ^ 22 }
    ensures page { take size buffer.new ≡ record_page size head body.now done }
    ensures size { length (take size buffer.new) ≡ size }
    ensures bytes { All (λ x. x < 256) (take size buffer.new) }
{
    write_page(head, body, done, &mut buffer[..size]);
}

/// Fills them with an open gate.
pub(crate) fn fill_gate(size: usize, buffer: &mut [u8])
    requires whole { length buffer.old ≡ 256 }
    requires high { size ≤ 256 }
    ensures page { take size buffer.new ≡ gate_page size }
    ensures size { length (take size buffer.new) ≡ size }
    ensures bytes { All (λ x. x < 256) (take size buffer.new) }
{
    write_gate(&mut buffer[..size]);
}
