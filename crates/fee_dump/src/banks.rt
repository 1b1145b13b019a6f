// The banks of an image.
ghost use Rattle.std.specs.Prelude.{◌≡◌, ◌<◌, IfSome, length, option_map};
ghost use Rattle.nv_base.specs.Geometry.{IsLegal, HasBanks, size_of};
ghost use Rattle.fee_image.specs.Image.{layout_of, head_of_bank};
ghost use Rattle.fee_dump.specs.Seen.{Shows};

use fee_view::BankView;
use nv_base::Geometry;

/// Bank `bank` of an image that so many banks share. None exactly where it doesn't stand.
pub(crate) fn bank_of(
    image: &[u8],
    geometry: Geometry,
    banks: u32,
    bank: u32,
) -> Option<BankView<'_>>
    requires legal { IsLegal geometry }
    requires banks { HasBanks geometry banks }
    requires size { length image.now ≡ size_of geometry }
    requires bank { bank < banks }
    ensures head { option_map (λ v. v.head) result ≡ head_of_bank (layout_of geometry banks) image.now bank }
    ensures shows { IfSome result (Shows (layout_of geometry banks) image.now bank) }
{
    let size = geometry.bank_size(banks) as usize;
    let from = bank as usize * size;
    BankView::of(&image[from..from + size], geometry.page)
}
