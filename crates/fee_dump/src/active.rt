// The active bank.
ghost use Rattle.std.specs.Prelude.{◌≡◌, ◌<◌, length};
ghost use Rattle.nv_base.specs.Geometry.{IsLegal, HasBanks, size_of};
ghost use Rattle.fee_image.specs.Image.{layout_of, active_of, head_of_bank, first_of as first_of_both};

use crate::banks::bank_of;
use fee_format::BankHead;
use nv_base::Geometry;

// The first one of those before a bank, and this bank with its head.
fn first_of(
    first: Option<(u32, BankHead)>,
    bank: u32,
    head: Option<BankHead>,
) -> Option<(u32, BankHead)>
    ensures { result ≡ first_of_both first bank head }
{
    let Some(head) = head else {
        return first;
    };
    match first {
        Some((_, best)) if best.generation >= head.generation => first,
        _ => Some((bank, head)),
    }
}

fn head_of(image: &[u8], geometry: Geometry, banks: u32, bank: u32) -> Option<BankHead>
    requires legal { IsLegal geometry }
    requires banks { HasBanks geometry banks }
    requires size { length image.now ≡ size_of geometry }
    requires bank { bank < banks }
    ensures { result ≡ head_of_bank (layout_of geometry banks) image.now bank }
{
    match bank_of(image, geometry, banks, bank) {
        Some(view) => Some(view.head()),
        None => None,
    }
}

/// The active bank with its head: the one that stands with the greatest generation, on a tie that of the least number.
/// None where none stands.
pub fn active_bank(image: &[u8], geometry: Geometry, banks: u32) -> Option<(u32, BankHead)>
    requires legal { IsLegal geometry }
    requires banks { HasBanks geometry banks }
    requires size { length image.now ≡ size_of geometry }
    ensures { result ≡ active_of (layout_of geometry banks) image.now }
{
    let mut active = None;
    for bank in 0..banks {
        active = first_of(active, bank, head_of(image, geometry, banks, bank));
    }
    active
}
