// Whether a flash holds a sound image.
ghost use Rattle.std.specs.Prelude.{◌≡◌, ◌<◌, ◌↔◌, length, IsSomeAnd, IsTrue};
ghost use Rattle.nvm.specs.nv_base.Geometry.{HasBanks, IsLegal};
ghost use Rattle.nvm.specs.fls_model.Told.{bytes_now};
ghost use Rattle.nvm.specs.nvm_flash.fee_image.Image.{image_page, layout_of};
ghost use Rattle.nvm.specs.nvm_flash.fee_image.Sound.{IsSoundBank, IsSoundImage};

use fee_core::is_sound_bank;
use lent_flash::LentFlash;
use nvm::Geometry;

// Copies one of the first pages of a bank.
fn copy_page(
    flash: &LentFlash,
    geometry: Geometry,
    banks: u32,
    bank: u32,
    page: u32,
    into: &mut [u8],
)
    requires legal { IsLegal geometry }
    requires shared { HasBanks geometry banks }
    requires attached { flash.now.geometry ≡ geometry }
    requires bank { bank < banks }
    requires page { page < 4 }
    requires room { length into.old ≡ geometry.page }
    ensures page { IsSomeAnd (bytes_now flash.now) (λ bytes. into.new ≡ image_page (layout_of geometry banks) bytes bank page) }
    ensures room { length into.new ≡ geometry.page }
{
    let _pages = geometry.bank_pages(banks);
    flash.copy_at(geometry.page_address(banks, bank, page), into);
}

// Whether a bank is one of a sound image.
fn is_bank_sound(flash: &LentFlash, geometry: Geometry, banks: u32, bank: u32) -> bool
    requires legal { IsLegal geometry }
    requires shared { HasBanks geometry banks }
    requires attached { flash.now.geometry ≡ geometry }
    requires bank { bank < banks }
    ensures { IsSomeAnd (bytes_now flash.now) (λ bytes. IsTrue result ↔ IsSoundBank (layout_of geometry banks) bytes bank) }
{
    let size = geometry.page as usize;
    let mut first = [0u8; 256];
    let mut second = [0u8; 256];
    let head = &mut first[..size];
    let gate = &mut second[..size];
    copy_page(flash, geometry, banks, bank, 0, head);
    copy_page(flash, geometry, banks, bank, 1, gate);
    is_sound_bank(head, gate)
}

/// Whether an attached flash, whose sectors so many banks share, holds a sound image. It reads two pages of each bank.
pub fn is_sound(flash: &LentFlash, geometry: Geometry, banks: u32) -> bool
    requires legal { IsLegal geometry }
    requires shared { HasBanks geometry banks }
    requires attached { flash.now.geometry ≡ geometry }
    ensures { IsSomeAnd (bytes_now flash.now) (λ bytes. IsTrue result ↔ IsSoundImage (layout_of geometry banks) bytes) }
{
    let _size = flash.len();
    for bank in 0..banks {
        if !is_bank_sound(flash, geometry, banks, bank) {
            return false;
        }
    }
    true
}
