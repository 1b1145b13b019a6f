// Reads that were not taken.
ghost use Rattle.std.specs.Prelude.{◌≡◌, ℕ, get_or, slice_set, IfOk, Some, None};

use std::alloc::{AllocError, Global};
use std::marker::Model;

/// For each block the number of the Post that gave what was read last to the caller's own buffer, if it wasn't taken yet.
/// Contracts see the list.
#[derive(Drop)]
pub struct Unread {
    posts: Vec<Option<u32>>,
}

impl Model for Unread {
    ghost use Rattle.nv_desk_copies.specs.Front.{Numbers};

    ghost Value = { Numbers };

    ghost view = { λ u. u.posts.items };
}

impl Unread {
    /// None of so many blocks, by id from 0.
    pub fn make(alloc: Global, ids: usize) -> Result<Unread, AllocError>
        ensures { IfOk result (λ u. (block : ℕ) → get_or u block None ≡ None) }
    {
        Ok(Unread {
            posts: vec![in alloc; None; ids]?,
        })
    }

    /// The Post with this number gave what was read of a block.
    pub fn note(&mut self, block: u16, number: u32)
        ensures { self.new ≡ slice_set self.old block (Some number) }
    {
        if usize::from(block) < self.posts.len() {
            self.posts[usize::from(block)] = Some(number);
        }
    }

    /// Takes what was read of a block.
    pub fn take(&mut self, block: u16) -> Option<u32>
        ensures number { result ≡ get_or self.old block None }
        ensures taken { self.new ≡ slice_set self.old block None }
    {
        if usize::from(block) < self.posts.len() {
            let number = self.posts[usize::from(block)];
            self.posts[usize::from(block)] = None;
            number
        } else {
            None
        }
    }
}
