// The pages of a record on the flash.
ghost use Rattle.std.specs.Prelude.{◌≡◌, ◌≤◌};
ghost use Rattle.nv_base.specs.Pages.{record_pages_of};

/// How many pages a record has whose content has so many bytes, 0 for a mark: a header page, a header gate, the body
/// and a commit gate. `page` is the size of a page in bytes.
pub fn record_pages(length: u16, page: u32) -> u32
    requires low { 16 ≤ page }
    requires high { page ≤ 256 }
    ensures pages { result ≡ record_pages_of length page }
    ensures most { length ≤ 4096 → result ≤ 259 }
{
    3 + (u32::from(length) + (page - 1)) / page
}
