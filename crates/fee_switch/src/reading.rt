// Reading a bank, piece by piece.
ghost use Rattle.std.specs.Prelude.{◌≡◌, ◌<◌, ◌≤◌, ◌+◌, ◌*◌, length};
ghost use Rattle.nv_base.specs.Geometry.{IsLegal, HasBanks, pages_of_bank};
ghost use Rattle.fee_switch.specs.Reading.{IsShared, ArePagesRead, buffer_size};

use fls_jobs::Fls;
use fls_model::{Flash, FlashAnswer};
use nv_base::Geometry;

/// Bytes that one read of a start-up gives at most, and of the greatest content.
const MOST: u32 = 4096;

/// The room for what one read gives, and for a content that a switch copies: a bank's bytes, and 4,096 at most.
pub(crate) fn buffer_size(geometry: Geometry, banks: u32) -> u32
    requires legal { IsLegal geometry }
    requires shared { HasBanks geometry banks }
    ensures { result ≡ buffer_size geometry banks }
{
    geometry.bank_size(banks).min(MOST)
}

// The pages that the next read takes, behind so many: those up to the end of their sector, as far as there is room for them.
pub(crate) fn pages_next(geometry: Geometry, banks: u32, done: u32) -> u32
    requires legal { IsLegal geometry }
    requires shared { HasBanks geometry banks }
    requires inside { done < pages_of_bank geometry banks }
    ensures some { 0 < result }
    ensures two { done ≡ 0 → 2 ≤ result }
    ensures inside { done + result ≤ pages_of_bank geometry banks }
    ensures room { result * geometry.page ≤ buffer_size geometry banks }
{
    let sector = geometry.sector_pages();
    (sector - done % sector).min(MOST / geometry.page)
}

/// Reads so many pages of a bank of those that share the flash, from one on, by one call of the flash.
pub(crate) fn read_pages<F: Flash>(
    fls: &mut Fls<F>,
    geometry: Geometry,
    banks: u32,
    bank: u32,
    from: u32,
    count: u32,
    into: &mut [u8],
) -> FlashAnswer
    requires flash { IsShared fls.old geometry banks }
    requires bank { bank < banks }
    requires some { 0 < count }
    requires inside { from + count ≤ pages_of_bank geometry banks }
    requires size { length into.old ≡ count * geometry.page }
    ensures read { ArePagesRead geometry banks bank from fls.old.flash result into.new fls.new.flash }
    ensures same { fls.new ≡ record fls.old { flash = fls.new.flash; result = fls.new.result } }
    ensures size { length into.new ≡ length into.old }
{
    fls.status();
    let address = geometry.page_address(banks, bank, from);
    fls.read_range(address, into)
}
