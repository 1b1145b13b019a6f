// A synchronized block in memory.
ghost use Rattle.std.specs.Prelude.{◌≡◌, ◌<◌, length, true, false, IfOk};
ghost use Rattle.block_machine.specs.nv_base.Count.{Rose};
ghost use Rattle.ram_blocks.specs.Copies.{next_number};
ghost use Rattle.ram_blocks.specs.Plain.{IsCopiedOut, IsCopiedIn, refused, refusing, stored, fresh_block};

use crate::Copied;
use block_machine::nv_base::Bytes;
use std::alloc::{AllocError, Global};

/// Numbers of stores and of contents stand still here.
pub const LAST_NUMBER: u64 = 1 << 60;

/// A synchronized block, or without bytes one that isn't: the application's content with the number of its store, the
/// content that was handed to it last with the number of those, the copies that were refused, and how many of the next ones are.
#[derive(Drop)]
pub struct PlainBlock {
    pub content: Bytes,
    pub number: u64,
    pub last: Bytes,
    pub handed: u64,
    pub refusals: u64,
    pub to_refuse: u64,
}

impl PlainBlock {
    /// A block before the first store, with these bytes.
    pub fn with(alloc: Global, content: Bytes) -> Result<PlainBlock, AllocError>
        ensures { IfOk result (λ b. b ≡ fresh_block content) }
    {
        let last = Bytes::zeros(alloc, content.len())?;
        Ok(PlainBlock {
            content,
            number: 0,
            last,
            handed: 0,
            refusals: 0,
            to_refuse: 0,
        })
    }

    fn is_refused(&mut self) -> bool
        ensures yes { result ≡ true → (0 < self.old.to_refuse) × Rose self.old.refusals self.new.refusals × (self.new ≡ refused self.old) }
        ensures no { result ≡ false → (self.old.to_refuse ≡ 0) × (self.new ≡ self.old) }
    {
        if self.to_refuse == 0 {
            return false;
        }
        self.to_refuse -= 1;
        self.refusals = self.refusals.saturating_add(1);
        true
    }

    /// Copies the content, unless the copy is to be refused.
    pub fn copy_out(&mut self, into: &mut [u8]) -> Copied
        requires { length into.old ≡ length self.old.content }
        ensures { IsCopiedOut result into.new self.old self.new }
    {
        if self.is_refused() {
            return Copied::Refused;
        }
        into.copy_from_slice(self.content.as_slice());
        Copied::Got {
            number: self.number,
        }
    }

    /// Takes a content, unless the copy is to be refused.
    pub fn copy_in(&mut self, from: &[u8]) -> Copied
        requires { length from.now ≡ length self.old.last }
        ensures { IsCopiedIn result from.now self.old self.new }
    {
        if self.is_refused() {
            return Copied::Refused;
        }
        self.last.copy_from_slice(from);
        self.handed = next_number(self.handed);
        Copied::Got {
            number: self.handed,
        }
    }

    /// Takes a store of the application, and answers its number.
    pub fn store(&mut self, content: &[u8]) -> u64
        requires { length content.now ≡ length self.old.content }
        ensures number { result ≡ next_number self.old.number }
        ensures stored { self.new ≡ stored content.now self.old }
    {
        self.content.copy_from_slice(content);
        self.number = next_number(self.number);
        self.number
    }

    /// Refuses so many copies more.
    pub fn refuse(&mut self, count: u32)
        ensures { self.new ≡ refusing count self.old }
    {
        self.to_refuse = self.to_refuse.saturating_add(u64::from(count));
    }
}

fn next_number(number: u64) -> u64
    ensures { result ≡ next_number number }
{
    if number < LAST_NUMBER {
        number + 1
    } else {
        LAST_NUMBER
    }
}
