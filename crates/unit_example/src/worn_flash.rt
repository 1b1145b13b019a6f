// The unit's own flash.
ghost use Rattle.std.specs.Prelude.{◌≡◌, length};
ghost use Rattle.nvm.specs.nv_base.Geometry.{IsLegal};
ghost use Rattle.nvm.specs.fls_model.Told.{armed, powered, HasRange, HasPage, HasSector};
ghost use Rattle.nvm.specs.fls_model.Attach.{IsAttach};
ghost use Rattle.nvm.specs.fls_model.Read.{IsRead};
ghost use Rattle.nvm.specs.fls_model.Step.{IsStep, programs, erases};

use nvm::{AttachFault, Flash, FlashAnswer, Geometry, MemFlash};
use std::alloc::Global;
use std::marker::Model;

/// A flash in memory that counts how often its sectors were erased. Contracts see what is told of it.
#[derive(Drop)]
pub struct WornFlash {
    memory: MemFlash,
    erases: u64,
}

impl Model for WornFlash {
    ghost use Rattle.nvm.specs.fls_model.Told.{Told};

    ghost Value = { Told };

    ghost view = { λ f. f.memory.told };
}

impl WornFlash {
    /// The flash over a memory.
    pub fn over(memory: MemFlash) -> WornFlash
        ensures { result ≡ memory.told }
    {
        WornFlash { memory, erases: 0 }
    }

    /// How often a sector was erased.
    pub fn erases(&self) -> u64 {
        self.erases
    }
}

impl Flash for WornFlash {
    ghost told = { λ f. f };

    fn attach(&mut self, alloc: Global, geometry: Geometry) -> Result<(), AttachFault> {
        self.memory.attach(alloc, geometry)
    }

    fn power_on(&mut self) {
        self.memory.power_on();
    }

    fn arm(&mut self, nth: u32, keep: u32) {
        self.memory.arm(nth, keep);
    }

    fn read(&mut self, address: u32, into: &mut [u8]) -> FlashAnswer {
        self.memory.read(address, into)
    }

    fn program(&mut self, address: u32, page: &[u8]) -> FlashAnswer {
        self.memory.program(address, page)
    }

    fn erase(&mut self, sector: u32) -> FlashAnswer {
        self.erases = self.erases.saturating_add(1);
        self.memory.erase(sector)
    }
}
