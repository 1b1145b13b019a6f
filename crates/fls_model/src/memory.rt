// A flash in memory.
ghost use Rattle.std.specs.Prelude.{◌≡◌, ◌≢◌, ◌≤◌, ◌<◌, ◌+◌, Some, IfOk, IfSome, OnOk, OnErr, length, slice_set};
ghost use Rattle.nv_base.specs.Count.{next_count};
ghost use Rattle.nv_base.specs.Geometry.{IsLegal, size_of};
ghost use Rattle.fls_model.specs.Told.{bytes_now, armed, powered, HasRange, HasPage, HasSector};
ghost use Rattle.fls_model.specs.Step.{IsStep, programs, erases};
ghost use Rattle.fls_model.specs.Read.{IsRead};
ghost use Rattle.fls_model.specs.Attach.{IsAttach, IsAttached, HasSize, enlarged};
ghost use Rattle.fls_model.specs.declared.call.Call.TheVariants.{Sector};
ghost use Rattle.fls_model.specs.Memory.{in_memory, IsAskedOnce, IsBegun};
ghost use Rattle.fls_model.specs.Call.{KeepsCall};

use crate::call::{Call, program_call};
use crate::range::{below_256, erase_range, program_range};
use crate::{AttachFault, Flash, FlashAnswer, SizedFlash};
use nv_base::Geometry;
use std::alloc::{AllocError, Global};
use std::marker::Model;

/// A flash in memory. It never fails, is never off, and takes no plans of power cuts. It tells the list of its changes
/// exactly while it was asked for at most as many changing operations since its attach as it was made to tell.
#[derive(Drop)]
pub struct MemFlash {
    geometry: Geometry,
    bytes: Vec<u8>,
    // the bytes at the attach, where it has room for calls
    first: Vec<u8>,
    calls: Vec<Call>,
    room: u32,
    asked: u64,
    ops: u64,
}

impl Model for MemFlash {
    ghost use Rattle.fls_model.specs.Memory.{InMemory};

    ghost Value = { InMemory };

    ghost use Rattle.fls_model.specs.MemoryInside.{in_memory_of, IsKept};

    ghost view = { in_memory_of };

    ghost invariant = { IsKept };
}

/// A flash of these bytes, not attached yet, that tells at most so many changes.
pub fn mem_flash(alloc: Global, bytes: &[u8], calls: u32) -> Result<MemFlash, AllocError>
    ensures { IfOk result (λ m. m ≡ in_memory bytes.now calls) }
{
    Ok(MemFlash {
        geometry: Geometry {
            page: 0,
            sector: 0,
            sectors: 0,
        },
        bytes: bytes.to_vec(alloc)?,
        first: Vec::new(alloc),
        calls: Vec::new(alloc),
        room: calls,
        asked: 0,
        ops: 0,
    })
}

// Room for these calls.
fn room_for(alloc: Global, calls: u32) -> Result<Vec<Call>, AllocError>
    ensures { IfOk result (λ v. length v.items ≡ calls) }
{
    let none = Call::Sector { sector: 0 };
    vec![in alloc; none; calls as usize]
}

// The bytes at an attach: a copy, or of a flash of no bytes a blank one.
fn first_bytes(alloc: Global, bytes: &[u8], size: usize) -> Result<Vec<u8>, AllocError>
    ensures { IfOk result (λ v. v.items ≡ enlarged size bytes.now) }
{
    if bytes.is_empty() {
        return vec![in alloc; 255u8; size];
    }
    bytes.to_vec(alloc)
}

// A flash of no bytes becomes blank.
fn enlarge(bytes: &mut Vec<u8>, size: usize) -> Result<(), AllocError>
    ensures done { OnOk result (bytes.new.items ≡ enlarged size bytes.old.items) }
    ensures err { OnErr result (bytes.new.items ≡ bytes.old.items) }
{
    if bytes.is_empty() {
        bytes.resize(size, 255)?;
    }
    Ok(())
}

// Counts an operation that is asked for.
fn count(asked: &mut u64, ops: &mut u64)
    ensures asked { asked.new ≡ next_count asked.old }
    ensures ops { ops.new ≡ next_count ops.old }
{
    *asked = asked.saturating_add(1);
    *ops = ops.saturating_add(1);
}

// Keeps the call of a program, behind so many others, where there is room: only there it is copied.
fn keep_program(calls: &mut Vec<Call>, asked: u64, address: u32, page: &[u8])
    requires { length page.now ≤ 256 }
    ensures { KeepsCall (programs address page.now) asked calls.old.items calls.new.items }
{
    if calls.len() as u64 <= asked {
        return;
    }
    calls[asked as usize] = program_call(address, page);
}

// Keeps the call of an erase likewise.
fn keep_erase(calls: &mut Vec<Call>, asked: u64, sector: u32)
    ensures { calls.new.items ≡ slice_set calls.old.items asked (Sector sector) }
{
    if asked < calls.len() as u64 {
        calls[asked as usize] = Call::Sector { sector };
    }
}

impl MemFlash {
    /// Lends the bytes as they are now.
    pub fn bytes(&self) -> &[u8]
        ensures { bytes_now self.now.told ≡ Some result.now }
    {
        &self.bytes
    }

    // Attaches it at a size that it has, or enlarges it.
    fn begin(&mut self, alloc: Global, geometry: Geometry, size: usize) -> Result<(), AllocError>
        requires legal { IsLegal geometry }
        requires size { size ≡ size_of geometry }
        requires found { IfSome self.old.told.bytes (λ b. HasSize geometry b.now) }
        ensures attach { OnOk result (IsAttached geometry self.old.told self.new.told) }
        ensures begun { OnOk result (IsBegun self.old self.new) }
        ensures err { OnErr result (self.new ≡ self.old) }
    {
        let calls = room_for(alloc, self.room)?;
        let first = if self.room > 0 {
            first_bytes(alloc, &self.bytes, size)?
        } else {
            Vec::new(alloc)
        };
        enlarge(&mut self.bytes, size)?;
        below_256(&self.bytes);
        self.geometry = geometry;
        self.first = first;
        self.calls = calls;
        self.asked = 0;
        Ok(())
    }
}

impl Flash for MemFlash {
    ghost told = { λ m. m.told };

    fn attach(&mut self, alloc: Global, geometry: Geometry) -> Result<(), AttachFault>
        requires { IsLegal geometry }
        ensures attach { IsAttach geometry self.old.told result self.new.told }
        ensures begun { OnOk result (IsBegun self.old self.new) }
        ensures never_fails { result ≢ Err AttachFault.Failed }
        ensures never_in_use { result ≢ Err AttachFault.InUse }
        ensures err { OnErr result (self.new ≡ self.old) }
    {
        let size = geometry.size() as usize;
        let found = self.bytes.len();
        if found != 0 && found != size {
            return Err(AttachFault::WrongSize {
                found: found as u64,
            });
        }
        self.begin(alloc, geometry, size)
            .map_err(|_| AttachFault::Memory)
    }

    fn power_on(&mut self)
        ensures power { self.new.told ≡ powered self.old.told }
        ensures same { self.new ≡ self.old }
    {
        let _geometry = self.geometry;
    }

    fn arm(&mut self, nth: u32, keep: u32)
        ensures arm { self.new.told ≡ armed nth keep self.old.told }
        ensures same { self.new ≡ self.old }
    {
        let _ops = self.ops;
    }

    fn read(&mut self, address: u32, into: &mut [u8]) -> FlashAnswer
        requires { HasRange self.old.told address (length into.old) }
        ensures read { IsRead address self.old.told into.old result into.new self.new.told }
        ensures done { result ≡ FlashAnswer.Done }
        ensures same { self.new ≡ self.old }
    {
        let at = address as usize;
        let end = at + into.len();
        into.copy_from_slice(&self.bytes[at..end]);
        FlashAnswer::Done
    }

    fn program(&mut self, address: u32, page: &[u8]) -> FlashAnswer
        requires { HasPage self.old.told address (length page.now) }
        ensures step { IsStep (programs address page.now) self.old.told result self.new.told }
        ensures done { result ≡ FlashAnswer.Done }
        ensures asked { IsAskedOnce self.old self.new }
    {
        program_range(&mut self.bytes, address as usize, page);
        keep_program(&mut self.calls, self.asked, address, page);
        count(&mut self.asked, &mut self.ops);
        FlashAnswer::Done
    }

    fn erase(&mut self, sector: u32) -> FlashAnswer
        requires { HasSector self.old.told sector }
        ensures step { IsStep (erases self.old.told.geometry sector) self.old.told result self.new.told }
        ensures done { result ≡ FlashAnswer.Done }
        ensures asked { IsAskedOnce self.old self.new }
    {
        let length = self.geometry.sector as usize;
        erase_range(&mut self.bytes, sector as usize * length, length);
        keep_erase(&mut self.calls, self.asked, sector);
        count(&mut self.asked, &mut self.ops);
        FlashAnswer::Done
    }
}

impl SizedFlash for MemFlash {
    fn size(&mut self, _geometry: Geometry) -> Result<u64, AttachFault> {
        Ok(self.bytes.len() as u64)
    }
}
