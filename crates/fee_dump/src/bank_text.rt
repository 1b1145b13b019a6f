// The text of one bank.
ghost use Rattle.std.specs.Prelude.{◌≡◌, ◌<◌, ◌++◌, OnOk, length, string_bytes};
ghost use Rattle.std.specs.List.{flat_map};
ghost use Rattle.nv_base.specs.Geometry.{IsLegal, HasBanks, size_of};
ghost use Rattle.fee_image.specs.Image.{layout_of, head_of_bank};
ghost use Rattle.fee_image.specs.RecordList.{records_of};
ghost use Rattle.fee_view.specs.View.{bank_of as bank_seen};
ghost use Rattle.fee_dump.specs.Dump.{record_line as record_text, bank_text};

use crate::banks::bank_of;
use crate::lines::{head_line, none_line, record_line, tail_line};
use fee_view::BankView;
use nv_base::Geometry;
use std::alloc::{AllocError, Global};

// Adds the lines of a bank's records.
fn push_records(alloc: Global, view: &BankView<'_>, text: &mut String) -> Result<(), AllocError>
    ensures { OnOk result (string_bytes text.new ≡ string_bytes text.old ++ flat_map (record_text view.now.head.format) (records_of (bank_seen view.now) view.now.bytes)) }
{
    let format = view.head().format;
    for record in view.records() {
        let line = record_line(alloc, format, &record)?;
        text.push_str(line.as_str())?;
    }
    Ok(())
}

/// Adds the lines of a bank: its head, its records and its tail where it stands.
pub(crate) fn push_bank(
    alloc: Global,
    image: &[u8],
    geometry: Geometry,
    banks: u32,
    bank: u32,
    text: &mut String,
) -> Result<(), AllocError>
    requires legal { IsLegal geometry }
    requires banks { HasBanks geometry banks }
    requires size { length image.now ≡ size_of geometry }
    requires bank { bank < banks }
    ensures { OnOk result (string_bytes text.new ≡ string_bytes text.old ++ bank_text (layout_of geometry banks) image.now bank (head_of_bank (layout_of geometry banks) image.now bank)) }
{
    let Some(view) = bank_of(image, geometry, banks, bank) else {
        let line = none_line(alloc, bank)?;
        text.push_str(line.as_str())?;
        return Ok(());
    };
    let line = head_line(alloc, bank, view.head())?;
    text.push_str(line.as_str())?;
    push_records(alloc, &view, text)?;
    text.push_str(tail_line(view.tail_blank()))?;
    Ok(())
}
