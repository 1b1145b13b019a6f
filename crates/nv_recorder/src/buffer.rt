// Memory for one content.
ghost use Rattle.std.specs.Prelude.{◌≡◌, ◌≤◌, length, take, IfOk};

use std::alloc::{AllocError, Global};
use std::marker::Model;

/// Memory for one content, which stands there until the next one does. Contracts see the content, and how many bytes have
/// room.
#[derive(Drop)]
pub struct Buffer {
    bytes: Vec<u8>,
    used: usize,
}

impl Model for Buffer {
    ghost use Rattle.std.specs.Prelude.{length, take, ◌≤◌};
    ghost use Rattle.nv_recorder.specs.Latest.{Buffered};

    ghost Value = { Buffered };

    ghost view = { λ b. record { room = length b.bytes.items; content = take b.used b.bytes.items } };

    ghost invariant = { λ b. b.used ≤ length b.bytes.items };
}

impl Buffer {
    /// Takes the memory of `room` bytes.
    pub fn make(alloc: Global, room: usize) -> Result<Buffer, AllocError>
        ensures { IfOk result (λ b. b.room ≡ room) }
    {
        Ok(Buffer {
            bytes: vec![in alloc; 0; room]?,
            used: 0,
        })
    }

    /// How many bytes have room.
    pub fn room(&self) -> usize
        ensures { result ≡ self.now.room }
    {
        self.bytes.len()
    }

    /// The content.
    pub fn content(&self) -> &[u8]
        ensures { result.now ≡ self.now.content }
    {
        &self.bytes[..self.used]
    }

    /// Puts a content there. It takes no memory.
    #[inline(always)]
    pub fn put(&mut self, content: &[u8])
        requires { length content.now ≤ self.old.room }
        ensures { self.new ≡ record self.old { content = content.now } }
    {
        self.used = content.len();
        fill(&mut self.bytes, content);
    }
}

// Puts a content at the front of a buffer.
fn fill(buffer: &mut [u8], content: &[u8])
    requires { length content.now ≤ length buffer.old }
    ensures front { take (length content.now) buffer.new ≡ content.now }
    ensures whole { length buffer.new ≡ length buffer.old }
{
    let (front, _) = buffer.split_at_mut(content.len());
    front.copy_from_slice(content);
}
