// Pages of a record.
ghost use Rattle.std.specs.Prelude.{◌≡◌, ◌≤◌};
ghost use Rattle.fee_format.specs.Pages.{record_pages_of};

use nv_base::record_pages;

/// How many pages a record has whose content has so many bytes, 0 for a mark: a header page, a header gate, the body
/// and a commit gate. `page` is the size of a page in bytes.
pub fn pages_of(length: u16, page: u32) -> u32
    requires low { 16 ≤ page }
    requires high { page ≤ 256 }
    ensures { result ≡ record_pages_of length page }
{
    record_pages(length, page)
}
