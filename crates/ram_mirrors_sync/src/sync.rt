// The driver's copies over mirrors.
ghost use Rattle.std.specs.Prelude.{◌≡◌, ℕ, List, length, map, option_map, IfSome, IfNone};
ghost use Rattle.ram_blocks.specs.Told.{IsSynchronized, told_at};
ghost use Rattle.ram_mirrors_sync.specs.Blocks.{AreEndsOf, EndList, IsStore, IsOver, HasCome, HasLooked, note_at, note_by, told_by};

use crate::end::{End, Ends, hold_note as hold_by};
use crate::mirrors::Mirrors;
use crate::note::Note;
use ram_blocks::{Copied, SyncCalls};
use std::marker::Model;

/// The driver's ends, with the mirrors that they belong to. No copy is refused, and none waits.
#[derive(Drop)]
pub struct MirrorSync<'a, N> {
    mirrors: &'a Mirrors<N>,
    ends: Vec<Option<End<N>>>,
}

impl<'a, N> Model for MirrorSync<'a, N> {
    ghost use Rattle.ram_mirrors_sync.specs.Blocks.{AreEndsOf, SyncValue};

    ghost Value = { SyncValue N };

    ghost view = { λ s. record { mirrors = s.mirrors.now; ends = s.ends.items } };

    ghost invariant = { λ s. AreEndsOf s.mirrors.now s.ends.items };
}

impl<'a, N: Drop> MirrorSync<'a, N> {
    /// The ends of these mirrors.
    pub fn of(mirrors: &'a Mirrors<N>, ends: Ends<N>) -> MirrorSync<'a, N>
        requires { AreEndsOf mirrors.now ends }
        ensures { result ≡ record { mirrors = mirrors.now; ends = ends } }
    {
        let Ends { ends } = ends;
        MirrorSync { mirrors, ends }
    }

    /// The bytes of a synchronized block, None of any other.
    #[tactic(auto, using(crate::proofs::Coming::bytes_at))]
    pub fn bytes(&self, block: u16) -> Option<usize>
        ensures { result ≡ option_map (λ s. s.bytes) (told_at (map told_by self.now.ends) block) }
    {
        let place = usize::from(block);
        if place < self.ends.len() {
            bytes_of(&self.ends[place])
        } else {
            None
        }
    }

    /// Looks once at the application's newest store of a synchronized block, without a copy, and answers its number.
    pub fn look(&mut self, block: u16) -> u64
        requires synchronized { (bytes : ℕ) × IsSynchronized (map told_by self.old.ends) block bytes }
        ensures told { map told_by self.new.ends ≡ map told_by self.old.ends }
        ensures over { IsOver self.old self.new }
        ensures stores_stay { (b n : ℕ) (x : List ℕ) → IsStore self.old.ends b n x → IsStore self.new.ends b n x }
        ensures looked { HasLooked self.old.ends self.new.ends block result }
    {
        let mirrors = self.mirrors;
        match &mut self.ends[usize::from(block)] {
            Some(end) => end.look(mirrors.pair(block)),
            None => unreachable!(),
        }
    }

    /// Gives the ends back.
    pub fn into_ends(self) -> Ends<N>
        ensures ends { result ≡ self.entry.ends }
        ensures own { AreEndsOf self.entry.mirrors result }
    {
        let MirrorSync { ends, .. } = self;
        Ends { ends }
    }
}

fn bytes_of<N>(end: &Option<End<N>>) -> Option<usize>
    ensures { result ≡ option_map (λ e. length e.first) end.now }
{
    match end {
        Some(end) => Some(end.first.len()),
        None => None,
    }
}

/// Holds what came along with the store of a block that was taken last beside something, where it is there. The copies stay as
/// they are, and who looked between an earlier value and this one was shown that store, or an earlier one.
pub fn hold_note<'a, G, P, N: Note<G, P> + Drop>(
    sync: &mut MirrorSync<'a, N>,
    block: u16,
    with: &G,
    by: &mut P,
)
    requires ready { N.ready with.now by.old }
    ensures same { sync.new ≡ sync.old }
    ensures none { IfNone (note_at sync.old.ends block) (by.new ≡ by.old) }
    ensures some { IfSome (note_at sync.old.ends block) (λ n. N.held with.now n by.old by.new) }
    ensures came { (before : EndList N) (n : ℕ) → HasLooked before sync.old.ends block n → HasCome sync.old.ends block n }
{
    let place = usize::from(block);
    if place < sync.ends.len() {
        hold_at(&mut sync.ends[place], with, by);
    }
}

fn hold_at<G, P, N: Note<G, P> + Drop>(end: &mut Option<End<N>>, with: &G, by: &mut P)
    requires ready { N.ready with.now by.old }
    ensures same { end.new ≡ end.old }
    ensures none { IfNone (note_by end.old) (by.new ≡ by.old) }
    ensures some { IfSome (note_by end.old) (λ n. N.held with.now n by.old by.new) }
{
    match end {
        Some(end) => hold_by(end, with, by),
        None => {}
    }
}

impl<'a, N: Drop> SyncCalls for MirrorSync<'a, N> {
    ghost told = { λ s. map told_by s.ends };

    ghost is_store = { λ s. IsStore s.ends };

    ghost looked = { λ old new. HasLooked old.ends new.ends };

    ghost over = { λ first now. IsOver first now };

    fn copy_out(&mut self, block: u16, into: &mut [u8]) -> Copied {
        let mirrors = self.mirrors;
        match &mut self.ends[usize::from(block)] {
            Some(end) => Copied::Got {
                number: end.copy_out(mirrors.pair(block), into),
            },
            None => unreachable!(),
        }
    }

    fn copy_in(&mut self, block: u16, from: &[u8]) -> Copied {
        let mirrors = self.mirrors;
        match &mut self.ends[usize::from(block)] {
            Some(end) => Copied::Got {
                number: end.copy_in(mirrors.pair(block), from),
            },
            None => unreachable!(),
        }
    }

    fn refusals(&self, block: u16) -> u64 {
        let _ends = self.ends.len();
        0
    }
}
