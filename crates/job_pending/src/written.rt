// The instances that a job wrote.
ghost use Rattle.std.specs.Prelude.{◌≡◌, ◌++◌, ◌∷◌, ◌<◌, [], length};
ghost use Rattle.block_machine.specs.Blocks.{is_in};

use std::marker::Model;

/// The indices of the instances that a job wrote since its last Pick, at most two. Contracts see the list.
#[derive(Drop)]
pub struct Written {
    first: Option<u8>,
    second: Option<u8>,
}

impl Model for Written {
    ghost use Rattle.std.specs.Prelude.{List, ℕ};
    ghost use Rattle.job_pending.specs.Written.{written_of};

    ghost Value = { List ℕ };

    ghost view = { λ w. written_of w.first w.second };
}

impl Written {
    /// None was written.
    pub fn none() -> Written
        ensures { result ≡ [] }
    {
        Written {
            first: None,
            second: None,
        }
    }

    /// One more was written.
    pub fn add(&mut self, index: u8)
        requires { length self.old < 2 }
        ensures { self.new ≡ self.old ++ index ∷ [] }
    {
        match self.first {
            None => {
                self.first = Some(index);
                self.second = None;
            }
            Some(_) => self.second = Some(index),
        }
    }

    /// How many were.
    pub fn len(&self) -> u8
        ensures { result ≡ length self.now }
    {
        match (self.first, self.second) {
            (None, _) => 0,
            (Some(_), None) => 1,
            (Some(_), Some(_)) => 2,
        }
    }

    /// Whether this one was.
    pub fn contains(&self, index: u8) -> bool
        ensures { result ≡ is_in self.now index }
    {
        match (self.first, self.second) {
            (None, _) => false,
            (Some(first), None) => first == index,
            (Some(first), Some(second)) => first == index || second == index,
        }
    }
}
