// The steps of a switch's target that aren't copies.
ghost use Rattle.std.specs.Prelude.{◌≡◌, ◌<◌, ◌≤◌, ◌+◌, ◌*◌, length, take};
ghost use Rattle.std.specs.List.{All};
ghost use Rattle.nv_base.specs.Geometry.{IsLegal, HasBanks, address_of_page, pages_of_bank, sectors_of_bank};
ghost use Rattle.fls_model.specs.Step.{IsStep, programs};
ghost use Rattle.fls_model.specs.Told.{HasPage, HasSector};
ghost use Rattle.fls_jobs.specs.CallOf.{closed_as};
ghost use Rattle.fls_jobs.specs.Start.{IsIdle};
ghost use Rattle.fee_format.specs.BankHead.{bank_head_page};
ghost use Rattle.fee_format.specs.Pages.{gate_page};
ghost use Rattle.fee_image.specs.BankLaws.{erase_of};
ghost use Rattle.fee_switch.specs.Target.{IsTarget, op_of, stage_after};

use fee_format::{BankHead, NEW_FORMAT, write_bank_head, write_gate};
use fls_jobs::Fls;
use fls_model::{Flash, FlashAnswer};
use nv_base::Geometry;

/// What comes next: the erase of a sector when so many are done, the head once all is copied, or the gate.
#[derive(Clone, Copy)]
pub enum Stage {
    Erase { done: u32 },
    Head,
    Gate,
}

/// The bank that a switch makes stand, of so many that share a flash of a geometry, with the generation that it gets.
#[derive(Clone, Copy)]
pub struct Target {
    pub geometry: Geometry,
    pub banks: u32,
    pub bank: u32,
    pub generation: u32,
    pub stage: Stage,
}

fn fill_head(generation: u32, size: usize, buffer: &mut [u8])
    requires whole { length buffer.old ≡ 256 }
    requires low { 16 ≤ size }
    requires high { size ≤ 256 }
    ensures page { take size buffer.new ≡ bank_head_page size (record { format = 2; generation = generation }) }
    ensures size { length (take size buffer.new) ≡ size }
    ensures bytes { All (λ x. x < 256) (take size buffer.new) }
{
    let head = BankHead {
        format: NEW_FORMAT,
        generation,
    };
    write_bank_head(head, &mut buffer[..size]);
}

fn fill_gate(size: usize, buffer: &mut [u8])
    requires whole { length buffer.old ≡ 256 }
    requires high { size ≤ 256 }
    ensures page { take size buffer.new ≡ gate_page size }
    ensures size { length (take size buffer.new) ≡ size }
{
    write_gate(&mut buffer[..size]);
}

impl Target {
    // Programs a page of the bank.
    fn program_page<F: Flash>(&self, fls: &mut Fls<F>, page: u32, bytes: &[u8]) -> FlashAnswer
        requires legal { IsLegal self.now.geometry }
        requires shared { HasBanks self.now.geometry self.now.banks }
        requires bank { self.now.bank < self.now.banks }
        requires page { page < pages_of_bank self.now.geometry self.now.banks }
        requires size { length bytes.now ≡ self.now.geometry.page }
        requires idle { IsIdle fls.old }
        requires geometry { fls.old.geometry ≡ self.now.geometry }
        ensures step { IsStep (programs (address_of_page self.now.geometry self.now.banks self.now.bank page) bytes.now) fls.old.flash result fls.new.flash }
        ensures same { fls.new ≡ record fls.old { flash = fls.new.flash; result = closed_as result } }
    {
        fls.status();
        let address = self.geometry.page_address(self.banks, self.bank, page);
        fls.program_page(address, bytes)
    }

    // The number of a sector of the bank among those of the flash.
    fn flash_sector(&self, sector: u32) -> u32
        requires legal { IsLegal self.now.geometry }
        requires shared { HasBanks self.now.geometry self.now.banks }
        requires bank { self.now.bank < self.now.banks }
        requires sector { sector < sectors_of_bank self.now.geometry self.now.banks }
        ensures value { result ≡ self.now.bank * sectors_of_bank self.now.geometry self.now.banks + sector }
        ensures inside { result < self.now.geometry.sectors }
    {
        self.bank * self.geometry.bank_sectors(self.banks) + sector
    }

    // Erases a sector of the bank.
    fn erase_sector<F: Flash>(&self, fls: &mut Fls<F>, sector: u32) -> FlashAnswer
        requires legal { IsLegal self.now.geometry }
        requires shared { HasBanks self.now.geometry self.now.banks }
        requires bank { self.now.bank < self.now.banks }
        requires sector { sector < sectors_of_bank self.now.geometry self.now.banks }
        requires idle { IsIdle fls.old }
        requires geometry { fls.old.geometry ≡ self.now.geometry }
        ensures step { IsStep (erase_of self.now.geometry self.now.banks self.now.bank sector) fls.old.flash result fls.new.flash }
        ensures same { fls.new ≡ record fls.old { flash = fls.new.flash; result = closed_as result } }
    {
        fls.status();
        fls.erase_sector(self.flash_sector(sector))
    }

    fn call<F: Flash>(&self, fls: &mut Fls<F>) -> FlashAnswer
        requires target { IsTarget self.now }
        requires idle { IsIdle fls.old }
        requires geometry { fls.old.geometry ≡ self.now.geometry }
        ensures step { IsStep (op_of self.now) fls.old.flash result fls.new.flash }
        ensures same { fls.new ≡ record fls.old { flash = fls.new.flash; result = closed_as result } }
    {
        let mut buffer = [0; 256];
        let size = self.geometry.page as usize;
        let pages = self.geometry.bank_pages(self.banks);
        prove!(4 <= pages);
        match self.stage {
            Stage::Erase { done } => self.erase_sector(fls, done),
            Stage::Head => {
                fill_head(self.generation, size, &mut buffer);
                self.program_page(fls, 0, &buffer[..size])
            }
            Stage::Gate => {
                fill_gate(size, &mut buffer);
                self.program_page(fls, 1, &buffer[..size])
            }
        }
    }

    /// Makes the next operation by one call of the flash, and leaves no job open. A done erase is followed by the next one, a
    /// done head by the gate; after a failed head the first sector is erased again, and any other operation that failed is
    /// made again.
    pub fn step<F: Flash>(&mut self, fls: &mut Fls<F>) -> FlashAnswer
        requires target { IsTarget self.old }
        requires idle { IsIdle fls.old }
        requires geometry { fls.old.geometry ≡ self.old.geometry }
        ensures step { IsStep (op_of self.old) fls.old.flash result fls.new.flash }
        ensures after { self.new ≡ record self.old { stage = stage_after self.old.stage result } }
        ensures same { fls.new ≡ record fls.old { flash = fls.new.flash; result = closed_as result } }
    {
        let answer = self.call(fls);
        self.stage = match (self.stage, answer) {
            (Stage::Erase { done }, FlashAnswer::Done) => Stage::Erase { done: done + 1 },
            (Stage::Head, FlashAnswer::Done) => Stage::Gate,
            (Stage::Head, FlashAnswer::Failed) => Stage::Erase { done: 0 },
            (stage, _) => stage,
        };
        answer
    }
}
