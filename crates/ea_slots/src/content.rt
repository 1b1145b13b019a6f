// Room for a sector.
ghost use Rattle.std.specs.Prelude.{◌≡◌, ◌≤◌, ◌<◌, ◌+◌, ◌*◌, [], false, IfOk, length, take, drop, replicate};
ghost use Rattle.std.specs.List.{All};
ghost use Rattle.nv_base.specs.Geometry.{IsLegal};
ghost use Rattle.fls_model.specs.Told.{HasRange};
ghost use Rattle.ea_image.specs.Slots.{SlotBytes, standing};
ghost use Rattle.ea_slots.specs.Calls.{ReadsSector};
ghost use Rattle.fls_model.specs.Read.{IsRead};
ghost use Rattle.fls_jobs.specs.CallOf.{closed_as};
ghost use Rattle.fls_jobs.specs.Start.{IsIdle};

use crate::starts::ReadFailed;
use ea_image::{SlotHead, slot_standing};
use fls_jobs::Fls;
use fls_model::{Flash, FlashAnswer};
use nv_base::Geometry;
use std::alloc::{AllocError, Global};
use std::marker::Model;

/// Room for the bytes of a sector, at whose front a content stands. Contracts see the whole room.
#[derive(Drop)]
pub(crate) struct Content {
    bytes: Vec<u8>,
}

impl Model for Content {
    ghost use Rattle.std.specs.Prelude.{ℕ, List};

    ghost Value = { List ℕ };

    ghost view = { λ c. c.bytes.items };
}

fn put_front(room: &mut [u8], from: &[u8])
    requires { length from.now ≤ length room.old }
    ensures front { take (length from.now) room.new ≡ from.now }
    ensures room { length room.new ≡ length room.old }
{
    room[..from.len()].copy_from_slice(from);
}

// Reads so many bytes of the flash to the front of a room.
fn read_front<F: Flash>(fls: &mut Fls<F>, address: u32, room: &mut [u8], size: u16) -> FlashAnswer
    requires idle { IsIdle fls.old }
    requires range { HasRange fls.old.flash address size }
    requires room { size ≤ length room.old }
    ensures read { IsRead address fls.old.flash (take size room.old) result (take size room.new) fls.new.flash }
    ensures whole { length room.new ≡ length room.old }
    ensures same { fls.new ≡ record fls.old { flash = fls.new.flash; result = closed_as result } }
{
    fls.read_range(address, &mut room[..usize::from(size)])
}

// So many bytes from a place on.
fn part(bytes: &[u8], from: usize, count: usize) -> &[u8]
    requires { from + count ≤ length bytes.now }
    ensures part { result.now ≡ take count (drop from bytes.now) }
    ensures whole { length result.now ≡ count }
{
    &bytes[from..from + count]
}

impl Content {
    /// Of zeros, as many as a sector has.
    pub fn make(alloc: Global, sector: u32) -> Result<Content, AllocError>
        ensures { IfOk result (λ c. c ≡ replicate sector 0) }
    {
        Ok(Content {
            bytes: vec![in alloc; 0; sector as usize]?,
        })
    }

    /// Lends so many bytes at its front.
    pub fn front(&self, size: u16) -> &[u8]
        requires { size ≤ length self.now }
        ensures front { result.now ≡ take size self.now }
        ensures whole { length result.now ≡ size }
    {
        &self.bytes[..usize::from(size)]
    }

    /// Puts a content at its front.
    pub fn put(&mut self, from: &[u8])
        requires { length from.now ≤ length self.old }
        ensures front { take (length from.now) self.new ≡ from.now }
        ensures small { All (λ x. x < 256) self.new }
        ensures room { length self.new ≡ length self.old }
    {
        put_front(&mut self.bytes, from);
        tell_bytes(&self.bytes);
    }

    /// Tells proofs that its bytes are below 256.
    pub fn tell_small(&self)
        ensures { All (λ x. x < 256) self.now }
    {
        tell_bytes(&self.bytes);
    }

    /// Reads so many bytes of the flash to its front.
    pub fn read<F: Flash>(&mut self, fls: &mut Fls<F>, address: u32, size: u16) -> FlashAnswer
        requires idle { IsIdle fls.old }
        requires range { HasRange fls.old.flash address size }
        requires room { size ≤ length self.old }
        ensures read { IsRead address fls.old.flash (take size self.old) result (take size self.new) fls.new.flash }
        ensures small { All (λ x. x < 256) self.new }
        ensures room { length self.new ≡ length self.old }
        ensures same { fls.new ≡ record fls.old { flash = fls.new.flash; result = closed_as result } }
    {
        let answer = read_front(fls, address, &mut self.bytes, size);
        tell_bytes(&self.bytes);
        answer
    }

    /// Reads a sector.
    pub fn read_sector<F: Flash>(
        &mut self,
        fls: &mut Fls<F>,
        geometry: Geometry,
        sector: u32,
    ) -> Result<(), ReadFailed>
        requires idle { IsIdle fls.old }
        requires legal { IsLegal geometry }
        requires geometry { fls.old.geometry ≡ geometry }
        requires on { fls.old.flash.off ≡ false }
        requires sector { sector < geometry.sectors }
        requires room { length self.old ≡ geometry.sector }
        ensures read { ReadsSector (sector * geometry.sector) result fls.old self.old fls.new self.new }
        ensures idle { IsIdle fls.new }
        ensures geometry { fls.new.geometry ≡ geometry }
        ensures on { fls.new.flash.off ≡ false }
        ensures room { length self.new ≡ geometry.sector }
    {
        fls.status();
        match fls.read_range(sector * geometry.sector, &mut self.bytes) {
            FlashAnswer::Done => Ok(()),
            _ => Err(ReadFailed),
        }
    }

    /// The head with which the slot of a number of this size stands, whose first sector was read.
    pub fn standing(&self, page: u32, size: u16) -> Option<SlotHead>
        requires { 2 * page ≤ length self.now }
        ensures { result ≡ standing page size (record { head = take page self.now; gate = take page (drop page self.now); body = [] }) }
    {
        let page = page as usize;
        slot_standing(
            part(&self.bytes, 0, page),
            part(&self.bytes, page, page),
            size,
        )
    }
}

// Tells proofs that bytes are below 256.
fn tell_bytes(bytes: &Vec<u8>)
    ensures { All (λ x. x < 256) bytes.now.items }
{}
