// The text of an image.
ghost use Rattle.std.specs.Prelude.{◌≡◌, IfOk, length, string_bytes};
ghost use Rattle.nv_base.specs.Geometry.{IsLegal, HasBanks, size_of};
ghost use Rattle.fee_image.specs.Image.{layout_of};
ghost use Rattle.fee_dump.specs.Dump.{dump_text as text_of_image};

use crate::active::active_bank;
use crate::bank_text::push_bank;
use crate::lines::active_line;
use nv_base::Geometry;
use std::alloc::{AllocError, Global};

/// The text of an image that so many banks share: for each bank in order its head, its records and its tail, or that it
/// doesn't stand, and last the active bank; each line with its newline.
pub fn dump_text(
    alloc: Global,
    image: &[u8],
    geometry: Geometry,
    banks: u32,
) -> Result<String, AllocError>
    requires legal { IsLegal geometry }
    requires banks { HasBanks geometry banks }
    requires size { length image.now ≡ size_of geometry }
    ensures { IfOk result (λ t. string_bytes t ≡ text_of_image (layout_of geometry banks) image.now) }
{
    let mut text = String::new(alloc);
    for bank in 0..banks {
        push_bank(alloc, image, geometry, banks, bank, &mut text)?;
    }
    let line = active_line(alloc, active_bank(image, geometry, banks))?;
    text.push_str(line.as_str())?;
    Ok(text)
}
