// The last store of each caller.
ghost use Rattle.std.specs.Prelude.{◌≡◌, ◌+◌, ◌*◌, IfOk, get_or, replicate, slice_set};
ghost use Rattle.script_player.specs.Table.{place_of as place};

use std::alloc::{AllocError, Global};
use std::marker::Model;

/// How many callers there are.
const CALLERS: usize = 16;

/// The number of each caller's last store of each block, 0 where it made none. Contracts see the table, block by block.
#[derive(Drop)]
pub struct LastStores {
    numbers: Vec<u64>,
}

impl Model for LastStores {
    ghost use Rattle.std.specs.Prelude.{ℕ, List};

    ghost Value = { List ℕ };

    ghost view = { λ t. t.numbers.items };
}

impl LastStores {
    /// Nothing is stored yet in the blocks from 1 to a number.
    pub fn make(alloc: Global, blocks: u16) -> Result<LastStores, AllocError>
        ensures { IfOk result (λ t. t ≡ replicate (16 * (blocks + 1)) 0) }
    {
        let numbers = vec![in alloc; 0; CALLERS * (usize::from(blocks) + 1)]?;
        Ok(LastStores { numbers })
    }

    /// The number of a caller's last store of a block.
    pub fn get(&self, caller: u8, block: u16) -> u64
        ensures { result ≡ get_or self.now (place caller block) 0 }
    {
        match self.numbers.get(place_of(caller, block)) {
            Some(number) => *number,
            None => 0,
        }
    }

    /// A caller made the store with this number.
    pub fn note(&mut self, caller: u8, block: u16, number: u64)
        ensures { self.new ≡ slice_set self.old (place caller block) number }
    {
        let place = place_of(caller, block);
        if place < self.numbers.len() {
            self.numbers[place] = number;
        }
    }
}

fn place_of(caller: u8, block: u16) -> usize
    ensures { result ≡ place caller block }
{
    usize::from(block) * CALLERS + usize::from(caller)
}
