// A flash whose bytes stand in memory that C lends.
ghost use Rattle.std.specs.Prelude.{◌≡◌, ◌+◌, ◌≤◌, Some, IsSome, IfSome, IsSomeAnd, length};
ghost use Rattle.nv_base.specs.Count.{next_count};
ghost use Rattle.nv_base.specs.Geometry.{IsLegal};
ghost use Rattle.fls_model.specs.Bytes.{piece};
ghost use Rattle.fls_model.specs.Told.{bytes_now, armed, powered, HasRange, HasPage, HasSector};
ghost use Rattle.fls_model.specs.Attach.{IsAttach};
ghost use Rattle.fls_model.specs.Read.{IsRead};
ghost use Rattle.fls_model.specs.Step.{IsStep, programs, erases};
ghost use Rattle.lent_flash.specs.Flash.{flash_over};

use crate::lent::Lent;
use crate::lent_bytes::LentBytes;
use crate::noted::Noted;
use fls_model::{AttachFault, Call, Flash, FlashAnswer, program_call};
use nv_base::{Geometry, Trace};
use std::alloc::Global;
use std::marker::Model;

/// A flash that lies in the memory that C lent, and takes no other. It never fails, is never off, and tells all its changes, which
/// takes no memory: contracts alone see the list.
#[derive(Drop)]
pub struct LentFlash {
    geometry: Geometry,
    // some between two calls
    lent: Option<LentBytes>,
    changes: Trace<Noted>,
    ops: u64,
}

impl Model for LentFlash {
    ghost use Rattle.fls_model.specs.Told.{Told};
    ghost use Rattle.lent_flash.specs.Flash.{told_of, IsLent};

    ghost Value = { Told };

    ghost view = { λ f. told_of f.geometry f.lent f.changes.items f.ops };

    ghost invariant = { λ f. IsLent f.geometry f.lent };
}

impl LentFlash {
    /// The flash over bytes that C lends.
    pub fn over(lent: Lent) -> LentFlash
        requires { IsSome lent.bytes }
        ensures { IfSome lent.bytes (λ bytes. result ≡ flash_over bytes) }
    {
        LentFlash {
            geometry: Geometry {
                page: 0,
                sector: 0,
                sectors: 0,
            },
            lent: Some(LentBytes::of(lent)),
            changes: Trace::new(),
            ops: 0,
        }
    }

    /// Gives the bytes back.
    pub fn into_lent(self) -> Lent
        ensures bytes { result.bytes ≡ bytes_now self }
        ensures some { IsSome result.bytes }
    {
        let LentFlash { lent, .. } = self;
        let Some(lent) = lent else { unreachable!() };
        lent.into_lent()
    }

    /// How many bytes there are.
    pub fn len(&self) -> usize
        ensures { IsSomeAnd (bytes_now self.now) (λ bytes. result ≡ length bytes) }
    {
        let Some(lent) = &self.lent else {
            unreachable!()
        };
        lent.len()
    }

    /// Copies bytes of it. It is no call of the flash, and changes nothing.
    pub fn copy_at(&self, address: u32, into: &mut [u8])
        requires { HasRange self.now address (length into.old) }
        ensures { IsSomeAnd (bytes_now self.now) (λ bytes. into.new ≡ piece address (length into.old) bytes) }
    {
        let Some(lent) = &self.lent else {
            unreachable!()
        };
        lent.copy_out(address as usize, into);
    }
}

impl Flash for LentFlash {
    ghost told = { λ f. f };

    fn attach(&mut self, alloc: Global, geometry: Geometry) -> Result<(), AttachFault> {
        let Some(lent) = &self.lent else {
            unreachable!()
        };
        let found = lent.len();
        let size = geometry.size() as usize;
        if found == 0 {
            return Err(AttachFault::Memory);
        }
        if found != size {
            return Err(AttachFault::WrongSize {
                found: found as u64,
            });
        }
        self.geometry = geometry;
        self.changes = Trace::new();
        Ok(())
    }

    fn power_on(&mut self) {
        let _ops = self.ops;
    }

    fn arm(&mut self, nth: u32, keep: u32) {
        let _ops = self.ops;
    }

    fn read(&mut self, address: u32, into: &mut [u8]) -> FlashAnswer {
        // Taken out, the bytes are copied at once: what is written can be no part of them.
        let Some(lent) = self.lent.take() else {
            unreachable!()
        };
        lent.copy_out(address as usize, into);
        self.lent = Some(lent);
        FlashAnswer::Done
    }

    fn program(&mut self, address: u32, page: &[u8]) -> FlashAnswer {
        let Some(lent) = self.lent.take() else {
            unreachable!()
        };
        let before = Trace::new().with(&lent);
        let noted = Noted::make(before, self.geometry, program_call(address, page));
        self.lent = Some(lent.programmed(address as usize, page));
        self.changes = self.changes.with(&noted);
        self.ops = self.ops.saturating_add(1);
        FlashAnswer::Done
    }

    fn erase(&mut self, sector: u32) -> FlashAnswer {
        let Some(lent) = self.lent.take() else {
            unreachable!()
        };
        let before = Trace::new().with(&lent);
        let noted = Noted::make(before, self.geometry, Call::Sector { sector });
        let length = self.geometry.sector as usize;
        self.lent = Some(lent.erased(sector as usize * length, length));
        self.changes = self.changes.with(&noted);
        self.ops = self.ops.saturating_add(1);
        FlashAnswer::Done
    }
}
