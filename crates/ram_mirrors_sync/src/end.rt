// The driver's ends of the mirrors.
ghost use Rattle.std.specs.Prelude.{◌≡◌, ℕ, List, length, vec_items, IfSome, IfNone};
ghost use Rattle.ram_mirrors_sync.specs.Ends.{IsEndOf, LooksEnd, CopiesEndOut, CopiesEndIn};

use crate::mirrors::Pair;
use crate::note::Note;
use ram_mirrors::{Owner, Taker};
use std::marker::Model;

/// The driver's ends of a block's mirrors, with what the application has before its first store.
#[derive(Drop)]
pub struct End<N> {
    pub(crate) up: Taker<N>,
    pub(crate) down: Owner<()>,
    pub(crate) first: Vec<u8>,
}

impl<N> Model for End<N> {
    ghost use Rattle.ram_mirrors_sync.specs.Ends.{EndValue};

    ghost Value = { EndValue N };

    ghost view = { λ e. record { up = e.up; down = e.down; first = e.first.items } };
}

impl<N: Drop> End<N> {
    // Looks once at the application's newest store, and answers its number.
    pub(crate) fn look(&mut self, pair: &Pair<N>) -> u64
        requires end { IsEndOf pair.now self.old }
        ensures end { IsEndOf pair.now self.new }
        ensures looked { LooksEnd self.old result self.new }
    {
        pair.up.refresh(&mut self.up);
        self.up.shown()
    }

    // Looks once at the application's newest store, and copies it, or the one that was taken last. Answers its number.
    pub(crate) fn copy_out(&mut self, pair: &Pair<N>, into: &mut [u8]) -> u64
        requires end { IsEndOf pair.now self.old }
        requires whole { length into.old ≡ self.old.up.size }
        ensures end { IsEndOf pair.now self.new }
        ensures copied { CopiesEndOut self.old result into.new self.new }
    {
        pair.up.refresh(&mut self.up);
        let number = self.up.shown();
        if number == 0 {
            into.copy_from_slice(self.first.as_slice());
        } else {
            into.copy_from_slice(self.up.content());
        }
        number
    }

    // Stores a content for the application. Answers how many there were.
    pub(crate) fn copy_in(&mut self, pair: &Pair<N>, from: &[u8]) -> u64
        requires end { IsEndOf pair.now self.old }
        requires whole { length from.now ≡ self.old.up.size }
        ensures end { IsEndOf pair.now self.new }
        ensures copied { CopiesEndIn self.old result from.now self.new }
    {
        pair.down.store(&mut self.down, from, None)
    }
}

// Holds what came along with the store that was taken last beside something, where it is there.
pub(crate) fn hold_note<G, P, N: Note<G, P> + Drop>(end: &mut End<N>, with: &G, by: &mut P)
    requires ready { N.ready with.now by.old }
    ensures same { end.new ≡ end.old }
    ensures none { IfNone end.old.up.note (by.new ≡ by.old) }
    ensures some { IfSome end.old.up.note (λ n. N.held with.now n by.old by.new) }
{
    match end.up.take_note() {
        Some(mut note) => {
            note.hold(with, by);
            end.up.put_note(Some(note));
        }
        None => end.up.put_note(None),
    }
}

/// The driver's ends of all mirrors. Contracts see those of each block, by id.
#[derive(Drop)]
pub struct Ends<N> {
    pub(crate) ends: Vec<Option<End<N>>>,
}

impl<N> Model for Ends<N> {
    ghost use Rattle.ram_mirrors_sync.specs.Blocks.{EndList};

    ghost Value = { EndList N };

    ghost view = { λ e. e.ends.items };
}
