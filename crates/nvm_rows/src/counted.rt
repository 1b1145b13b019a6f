// A flash that counts its calls.
ghost use Rattle.std.specs.Prelude.{◌≡◌};

use fls_model::{AttachFault, Flash, FlashAnswer};
use nv_base::Geometry;
use std::alloc::Global;

/// A flash over another one, with the changing operations and the reads that it was asked for.
#[derive(Drop)]
pub struct Counted<F: Flash> {
    flash: F,
    operations: u64,
    reads: u64,
}

impl<F: Flash> Counted<F> {
    pub fn make(flash: F) -> Counted<F> {
        Counted {
            flash,
            operations: 0,
            reads: 0,
        }
    }

    /// The changing operations and the reads so far.
    pub fn calls(&self) -> (u64, u64) {
        (self.operations, self.reads)
    }

    /// Gives the inner flash back.
    pub fn into_inner(self) -> F {
        self.flash
    }
}

impl<F: Flash> Flash for Counted<F> {
    ghost told = { λ s. F.told s.flash };

    fn attach(&mut self, alloc: Global, geometry: Geometry) -> Result<(), AttachFault> {
        self.flash.attach(alloc, geometry)
    }

    fn power_on(&mut self) {
        self.flash.power_on();
    }

    fn arm(&mut self, nth: u32, keep: u32) {
        self.flash.arm(nth, keep);
    }

    fn read(&mut self, address: u32, into: &mut [u8]) -> FlashAnswer {
        self.reads = self.reads.saturating_add(1);
        self.flash.read(address, into)
    }

    fn program(&mut self, address: u32, page: &[u8]) -> FlashAnswer {
        self.operations = self.operations.saturating_add(1);
        self.flash.program(address, page)
    }

    fn erase(&mut self, sector: u32) -> FlashAnswer {
        self.operations = self.operations.saturating_add(1);
        self.flash.erase(sector)
    }
}
