// The flash as drivers see it.
ghost use Rattle.std.specs.Prelude.{◌≡◌, length};
ghost use Rattle.nv_base.specs.Geometry.{IsLegal};
ghost use Rattle.fls_model.specs.Told.{Told, armed, powered, HasRange, HasPage, HasSector};
ghost use Rattle.fls_model.specs.Step.{IsStep, programs, erases};
ghost use Rattle.fls_model.specs.Read.{IsRead};
ghost use Rattle.fls_model.specs.Attach.{IsAttach};
ghost use Rattle.fls_model.specs.Size.{IsLook};

use nv_base::Geometry;
use std::alloc::Global;
use thiserror::Error;

/// The answer of a flash call: done, failed by a counted fault, or not done as the power is off.
#[derive(Clone, Copy, PartialEq, Eq)]
pub enum FlashAnswer {
    Done,
    Failed,
    Off,
}

/// Why a flash couldn't be attached: a counted fault, another call that has it in use, which counts as a fault too, a size in
/// bytes that is neither 0 nor the geometry's, or want of memory.
#[derive(Clone, Copy, Debug, Error)]
pub enum AttachFault {
    #[error("the flash counted a fault while it was attached")]
    Failed,
    #[error("another call has the flash in use")]
    InUse,
    #[error("the flash has {found} bytes in place of the geometry's sector times sectors")]
    WrongSize { found: u64 },
    #[error("there is no memory to attach the flash")]
    Memory,
}

/// A flash whose erased bytes read 0xFF and whose programs clear bits (SWS Flash Driver). Addresses and lengths are
/// in bytes. `Failed` comes only where the count of faults rose, `Off` exactly while a power cut stands.
pub trait Flash {
    /// All that is told of it.
    ghost told: { Self → Told };

    /// Attaches it at this geometry. A flash of no bytes is blank: it is enlarged with 0xFF. At Err nothing changes
    /// but the count of faults.
    fn attach(&mut self, alloc: Global, geometry: Geometry) -> Result<(), AttachFault>
        requires { IsLegal geometry }
        ensures { IsAttach geometry (told self.old) result (told self.new) };

    /// Ends a standing power cut, and drops a plan.
    fn power_on(&mut self)
        ensures { told self.new ≡ powered (told self.old) };

    /// Plans a power cut at the nth changing operation from now, with so many bytes of it done, while plans are taken
    /// and nth isn't 0. A new plan replaces one that stands.
    fn arm(&mut self, nth: u32, keep: u32)
        ensures { told self.new ≡ armed nth keep (told self.old) };

    /// Reads bytes of an attached flash.
    fn read(&mut self, address: u32, into: &mut [u8]) -> FlashAnswer
        requires { HasRange (told self.old) address (length into.old) }
        ensures { IsRead address (told self.old) into.old result into.new (told self.new) };

    /// Clears bits of one page.
    fn program(&mut self, address: u32, page: &[u8]) -> FlashAnswer
        requires { HasPage (told self.old) address (length page.now) }
        ensures { IsStep (programs address page.now) (told self.old) result (told self.new) };

    /// Sets all bits of a sector, by its number.
    fn erase(&mut self, sector: u32) -> FlashAnswer
        requires { HasSector (told self.old) sector }
        ensures { IsStep (erases (told self.old).geometry sector) (told self.old) result (told self.new) };
}

/// A flash of which can be asked how many bytes it has before it is attached.
pub trait SizedFlash: Flash {
    /// How many bytes it has, none where it is blank, if it is to be attached at this geometry. Nothing changes but the count of
    /// faults: one is counted where it can't be told.
    fn size(&mut self, geometry: Geometry) -> Result<u64, AttachFault>
        requires { IsLegal geometry }
        ensures { IsLook (Self.told self.old) result (Self.told self.new) };
}
