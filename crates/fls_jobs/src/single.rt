// Single calls of the flash, which open no job.
ghost use Rattle.std.specs.Prelude.{◌≡◌, length};
ghost use Rattle.fls_model.specs.Told.{HasRange, HasPage, HasSector};
ghost use Rattle.fls_model.specs.Read.{IsRead};
ghost use Rattle.fls_model.specs.Step.{IsStep, programs, erases};
ghost use Rattle.fls_jobs.specs.CallOf.{closed_as};
ghost use Rattle.fls_jobs.specs.Start.{IsIdle};
ghost use Rattle.fls_jobs.specs.State.{IsDriverState};

use crate::{Fls, FlsResult};
use fls_model::{Flash, FlashAnswer};

// What a driver comes to by a single call.
fn closed_as(answer: FlashAnswer) -> FlsResult
    ensures { result ≡ closed_as answer }
{
    match answer {
        FlashAnswer::Done => FlsResult::JobOk,
        FlashAnswer::Failed => FlsResult::JobFailed,
        FlashAnswer::Off => FlsResult::JobCanceled,
    }
}

impl<F: Flash> Fls<F> {
    /// Programs a page by one call of the flash, and leaves no job open.
    pub fn program_page(&mut self, address: u32, page: &[u8]) -> FlashAnswer
        requires idle { IsIdle self.old }
        requires page { HasPage self.old.flash address (length page.now) }
        ensures step { IsStep (programs address page.now) self.old.flash result self.new.flash }
        ensures same { self.new ≡ record self.old { flash = self.new.flash; result = closed_as result } }
        ensures before { IsDriverState self.old }
        ensures after { IsDriverState self.new }
    {
        self.tell_state();
        let answer = self.flash.program(address, page);
        self.result = closed_as(answer);
        answer
    }

    /// Erases a sector, by its number, by one call of the flash, and leaves no job open.
    pub fn erase_sector(&mut self, sector: u32) -> FlashAnswer
        requires idle { IsIdle self.old }
        requires sector { HasSector self.old.flash sector }
        ensures step { IsStep (erases self.old.flash.geometry sector) self.old.flash result self.new.flash }
        ensures same { self.new ≡ record self.old { flash = self.new.flash; result = closed_as result } }
        ensures before { IsDriverState self.old }
        ensures after { IsDriverState self.new }
    {
        self.tell_state();
        let answer = self.flash.erase(sector);
        self.result = closed_as(answer);
        answer
    }

    /// Reads bytes by one call of the flash, and leaves no job open.
    pub fn read_range(&mut self, address: u32, into: &mut [u8]) -> FlashAnswer
        requires idle { IsIdle self.old }
        requires range { HasRange self.old.flash address (length into.old) }
        ensures read { IsRead address self.old.flash into.old result into.new self.new.flash }
        ensures same { self.new ≡ record self.old { flash = self.new.flash; result = closed_as result } }
        ensures before { IsDriverState self.old }
        ensures after { IsDriverState self.new }
    {
        self.tell_state();
        let answer = self.flash.read(address, into);
        self.result = closed_as(answer);
        answer
    }
}
