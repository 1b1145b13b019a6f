// Memory for one content.
ghost use Rattle.std.specs.Prelude.{◌≡◌, ◌≤◌, length, take, Some, None, IfOk, IfSome, IsSomeAnd, option_copied};
ghost use Rattle.std.specs.Option.{option_eq};
ghost use Rattle.std.specs.Str.{bytes_eq};
ghost use Rattle.ram_blocks.specs.Told.{IsSynchronized, to_refuse_of};
ghost use Rattle.ram_blocks.specs.Tries.{IsOfStore, IsTried, Spends, is_refused, OnlyCounts};
ghost use Rattle.nv_desk_copies.specs.Front.{CopiesStay, given_if};

use ram_blocks::{SyncCalls, Tried, copy_out};
use std::alloc::{AllocError, Global};
use std::marker::Model;

/// Memory for one content, which stands there until the next one does or none does. Contracts see the content, if one stands there,
/// and how many bytes have room.
#[derive(Drop)]
pub struct Staging {
    buffer: Vec<u8>,
    used: usize,
    stands: bool,
}

impl Model for Staging {
    ghost use Rattle.std.specs.Prelude.{length, take, ◌≤◌, if◌then◌else◌, Some, None};
    ghost use Rattle.nv_desk_copies.specs.Front.{StagingState};

    ghost Value = { StagingState };

    ghost view = { λ s. record { room = length s.buffer.items; bytes = if s.stands then Some (take s.used s.buffer.items) else None } };

    ghost invariant = { λ s. s.used ≤ length s.buffer.items };
}

impl Staging {
    /// Takes the memory of `room` bytes.
    pub fn make(alloc: Global, room: usize) -> Result<Staging, AllocError>
        ensures { IfOk result (λ s. s.room ≡ room) }
    {
        Ok(Staging {
            buffer: vec![in alloc; 0; room]?,
            used: 0,
            stands: false,
        })
    }

    /// The content, if one stands there.
    pub fn bytes(&self) -> Option<&[u8]>
        ensures { option_copied result ≡ self.now.bytes }
    {
        if self.stands {
            Some(&self.buffer[..self.used])
        } else {
            None
        }
    }

    /// No content stands there.
    pub fn clear(&mut self)
        ensures { self.new ≡ record self.old { bytes = None } }
    {
        self.stands = false;
    }

    /// Puts a content there.
    pub fn put(&mut self, content: &[u8])
        requires { length content.now ≤ self.old.room }
        ensures { self.new ≡ record self.old { bytes = Some content.now } }
    {
        self.used = content.len();
        self.stands = true;
        fill(&mut self.buffer, content);
    }

    /// Puts a store of the application there, of so many bytes, that isn't older than the store `asked`, in so many tries
    /// at most.
    pub fn copy_out<C: SyncCalls>(
        &mut self,
        copies: &mut C,
        block: u16,
        count: usize,
        asked: u64,
        tries: u16,
    ) -> Tried
        requires room { count ≤ self.old.room }
        requires synchronized { IsSynchronized (C.told copies.old) block count }
        ensures room { self.new.room ≡ self.old.room }
        ensures whole { IfSome self.new.bytes (λ x. length x ≡ count) }
        ensures tried { IsTried result block asked tries (C.told copies.old) (C.told copies.new) }
        ensures store { IsSomeAnd self.new.bytes (λ bytes. IsOfStore result bytes (λ n x. C.is_store copies.new block n x × C.looked copies.old copies.new block n)) }
        ensures spends { Spends (is_refused result) tries (to_refuse_of (C.told copies.old) block) (to_refuse_of (C.told copies.new) block) }
        ensures counts { OnlyCounts block (C.told copies.old) (C.told copies.new) }
        ensures stays { CopiesStay C.told C.is_store C.over copies.old copies.new }
    {
        self.used = count;
        self.stands = true;
        copy_to(&mut self.buffer, copies, block, count, asked, tries)
    }
}

/// Whether what is given of a content is this.
pub fn is_given(gives: bool, content: &[u8], other: Option<&[u8]>) -> bool
    ensures { result ≡ option_eq bytes_eq (given_if gives content.now) (option_copied other.entry) }
{
    match (gives, other) {
        (true, Some(other)) => content == other,
        (false, None) => true,
        _ => false,
    }
}

/// A content, where it is given.
pub fn given_if(gives: bool, content: &[u8]) -> Option<&[u8]>
    ensures { option_copied result ≡ given_if gives content.now }
{
    if gives { Some(content) } else { None }
}

// Puts a content at the front of a buffer.
fn fill(buffer: &mut [u8], content: &[u8])
    requires { length content.now ≤ length buffer.old }
    ensures front { take (length content.now) buffer.new ≡ content.now }
{
    let (front, _) = buffer.split_at_mut(content.len());
    front.copy_from_slice(content);
}

// Copies a store to the front of a buffer.
fn copy_to<C: SyncCalls>(
    buffer: &mut [u8],
    copies: &mut C,
    block: u16,
    count: usize,
    asked: u64,
    tries: u16,
) -> Tried
    requires room { count ≤ length buffer.old }
    requires synchronized { IsSynchronized (C.told copies.old) block count }
    ensures whole { length (take count buffer.new) ≡ count }
    ensures tried { IsTried result block asked tries (C.told copies.old) (C.told copies.new) }
    ensures store { IsOfStore result (take count buffer.new) (λ n x. C.is_store copies.new block n x × C.looked copies.old copies.new block n) }
    ensures spends { Spends (is_refused result) tries (to_refuse_of (C.told copies.old) block) (to_refuse_of (C.told copies.new) block) }
    ensures counts { OnlyCounts block (C.told copies.old) (C.told copies.new) }
    ensures stays { CopiesStay C.told C.is_store C.over copies.old copies.new }
{
    let (front, _) = buffer.split_at_mut(count);
    copy_out(copies, block, asked, tries, front)
}
