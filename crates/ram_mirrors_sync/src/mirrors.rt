// The mirrors of the synchronized blocks.
ghost use Rattle.std.specs.Prelude.{◌≡◌, Some, IsSome};
ghost use Rattle.ram_mirrors_sync.specs.Blocks.{pair_at};

use ram_mirrors::Mirror;
use std::marker::Model;

/// The mirrors of a block: from the application to the driver, and back. A store of the application hands a note along.
#[derive(Drop)]
pub struct Pair<N> {
    pub(crate) up: Mirror<N>,
    pub(crate) down: Mirror<()>,
}

impl<N> Model for Pair<N> {
    ghost use Rattle.ram_mirrors_sync.specs.Ends.{PairValue};

    ghost Value = { PairValue };

    ghost view = { λ p. record { up = p.up; down = p.down } };
}

/// The mirrors of all synchronized blocks, which the threads share. Contracts see those of each block, by id.
#[derive(Drop)]
pub struct Mirrors<N> {
    pub(crate) pairs: Vec<Option<Pair<N>>>,
}

impl<N> Model for Mirrors<N> {
    ghost use Rattle.ram_mirrors_sync.specs.Blocks.{Pairs};

    ghost Value = { Pairs };

    ghost view = { λ m. m.pairs.items };
}

impl<N> Mirrors<N> {
    // Those of a block that has them.
    pub(crate) fn pair(&self, block: u16) -> &Pair<N>
        requires { IsSome (pair_at self.now block) }
        ensures { pair_at self.now block ≡ Some result.now }
    {
        match self.pairs.get(usize::from(block)) {
            Some(Some(pair)) => pair,
            _ => unreachable!(),
        }
    }
}
