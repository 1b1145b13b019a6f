// A page of a bank's bytes.
ghost use Rattle.std.specs.Prelude.{◌≡◌, ◌≤◌, ◌+◌, ◌*◌, length};
ghost use Rattle.fee_image.specs.Bank.{page_of};
ghost use Rattle.fee_view.specs.View.{own_bank};

/// A page of these bytes, from 0.
#[inline(always)]
pub fn page_of(bytes: &[u8], page: u32, at: u32) -> &[u8]
    requires inside { at * page + page ≤ length bytes.now }
    ensures page { result.now ≡ page_of (own_bank page 2 1) bytes.now at }
    ensures size { length result.now ≡ page }
{
    let from = at as usize * page as usize;
    &bytes[from..from + page as usize]
}
