// How often a caller stored.
ghost use Rattle.std.specs.Prelude.{◌≡◌, ◌<◌, ◌+◌, IfOk, get_or, replicate, slice_set};

use std::alloc::{AllocError, Global};
use std::marker::Model;

/// The number of a caller's stores of each block. Contracts see the numbers, by block.
#[derive(Drop)]
pub struct StoreCounts {
    counts: Vec<u64>,
}

impl Model for StoreCounts {
    ghost use Rattle.std.specs.Prelude.{ℕ, List};

    ghost Value = { List ℕ };

    ghost view = { λ c. c.counts.items };
}

impl StoreCounts {
    /// Nothing is stored yet in the blocks up to this one.
    pub fn make(alloc: Global, blocks: u16) -> Result<StoreCounts, AllocError>
        ensures { IfOk result (λ c. c ≡ replicate (blocks + 1) 0) }
    {
        let counts = vec![in alloc; 0; usize::from(blocks) + 1]?;
        Ok(StoreCounts { counts })
    }

    /// How many stores of a block there are.
    pub fn of(&self, block: u16) -> u64
        ensures { result ≡ get_or self.now block 0 }
    {
        match self.counts.get(usize::from(block)) {
            Some(count) => *count,
            None => 0,
        }
    }

    /// One store of a block more.
    pub fn note(&mut self, block: u16)
        requires { get_or self.old block 0 < u64.MAX }
        ensures { self.new ≡ slice_set self.old block (get_or self.old block 0 + 1) }
    {
        let place = usize::from(block);
        if place < self.counts.len() {
            self.counts[place] += 1;
        }
    }
}
