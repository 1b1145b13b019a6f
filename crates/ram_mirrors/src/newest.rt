//! The newest content, lent by the taker.
ghost use Rattle.std.specs.Prelude.{⊤, ◌≡◌, MatchOption};
ghost use Rattle.std.specs.Borrow.{sem, follows_so};
ghost use mathlib.Core.Option.{none};
ghost use Rattle.ram_mirrors.specs.contracts.ends.Taker.{the_row};
ghost use Rattle.ram_mirrors.specs.Ends.{IsTakerOf, NothingNewer, TakesNewest};

use crate::ends::Taker;
use crate::mirror::Mirror;

impl<N: Drop> Taker<N> {
    /// `Mirror::refresh`, with the content of the store that it took. None comes exactly where the word showed no
    /// store since the last take.
    pub fn newest(&mut self, mirror: &Mirror<N>) -> Option<(u64, &[u8])>
        requires own { IsTakerOf mirror.now self.old }
        ensures* ends { sem 𝓛 (follows_so (the_row N.row) (the_row N.row) self.entry.ghost_name none (λ _ _. ⊤) (λ u. IsTakerOf mirror.now u × MatchOption result (NothingNewer self.old u) (λ p. TakesNewest self.old p.0 u × (p.1.now ≡ u.content)))) }
    {
        let found = mirror.refresh(self);
        self.pair(found)
    }
}
