// Room for a content.
ghost use Rattle.std.specs.Prelude.{◌≡◌, ◌<◌, ◌≤◌, ◌+◌, IfOk, length, take};
ghost use Rattle.nv_base.specs.Geometry.{address_of_page};
ghost use Rattle.nv_base.specs.Pages.{record_pages_of};
ghost use Rattle.fls_model.specs.Read.{IsRead};
ghost use Rattle.fls_jobs.specs.CallOf.{closed_as};
ghost use Rattle.fls_jobs.specs.Start.{IsIdle};

use fee_laws::Log;
use fls_jobs::Fls;
use fls_model::{Flash, FlashAnswer};
use std::alloc::{AllocError, Global};
use std::marker::Model;

/// Room for the greatest content, 4,096 bytes, at whose front one stands. Contracts see the whole room.
#[derive(Drop)]
pub(crate) struct Content {
    bytes: Vec<u8>,
}

impl Model for Content {
    ghost use Rattle.std.specs.Prelude.{◌≡◌, ℕ, List, length};

    ghost Value = { List ℕ };

    ghost view = { λ c. c.bytes.items };

    ghost invariant = { λ c. length c.bytes.items ≡ 4096 };
}

fn put_front(room: &mut [u8], from: &[u8])
    requires { length from.now ≤ length room.old }
    ensures front { take (length from.now) room.new ≡ from.now }
    ensures room { length room.new ≡ length room.old }
{
    room[..from.len()].copy_from_slice(from);
}

// Reads the content that stands at a place of a log to the front of a room.
fn read_front<F: Flash>(
    fls: &mut Fls<F>,
    log: &Log,
    room: &mut [u8],
    size: u16,
    at: u32,
) -> FlashAnswer
    requires idle { IsIdle fls.old }
    requires geometry { fls.old.geometry ≡ log.now.geometry }
    requires within { at + record_pages_of size log.now.geometry.page ≤ log.now.end }
    requires room { size ≤ length room.old }
    ensures read { IsRead (address_of_page log.now.geometry log.now.banks log.now.bank (at + 2)) fls.old.flash (take size room.old) result (take size room.new) fls.new.flash }
    ensures whole { length room.new ≡ length room.old }
    ensures same { fls.new ≡ record fls.old { flash = fls.new.flash; result = closed_as result } }
{
    fls.status();
    log.lists();
    let address = log.content_address(at);
    fls.read_range(address, &mut room[..usize::from(size)])
}

impl Content {
    /// Of zeros.
    pub fn make(alloc: Global) -> Result<Content, AllocError>
        ensures { IfOk result (λ c. length c ≡ 4096) }
    {
        Ok(Content {
            bytes: vec![in alloc; 0; 4096]?,
        })
    }

    /// Lends so many bytes at its front.
    pub fn front(&self, size: u16) -> &[u8]
        requires { size ≤ 4096 }
        ensures front { result.now ≡ take size self.now }
        ensures whole { length result.now ≡ size }
    {
        &self.bytes[..usize::from(size)]
    }

    /// Puts a content at its front.
    pub fn put(&mut self, from: &[u8])
        requires { length from.now ≤ 4096 }
        ensures front { take (length from.now) self.new ≡ from.now }
        ensures room { length self.new ≡ 4096 }
    {
        put_front(&mut self.bytes, from);
    }

    /// Reads the content of this size that stands at a place of a log to its front.
    pub fn read<F: Flash>(&mut self, fls: &mut Fls<F>, log: &Log, size: u16, at: u32) -> FlashAnswer
        requires idle { IsIdle fls.old }
        requires geometry { fls.old.geometry ≡ log.now.geometry }
        requires within { at + record_pages_of size log.now.geometry.page ≤ log.now.end }
        requires few { size ≤ 4096 }
        ensures read { IsRead (address_of_page log.now.geometry log.now.banks log.now.bank (at + 2)) fls.old.flash (take size self.old) result (take size self.new) fls.new.flash }
        ensures room { length self.new ≡ 4096 }
        ensures same { fls.new ≡ record fls.old { flash = fls.new.flash; result = closed_as result } }
    {
        read_front(fls, log, &mut self.bytes, size, at)
    }
}
