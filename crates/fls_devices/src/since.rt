// How many operations a flash was asked for.
ghost use Rattle.std.specs.Prelude.{◌≡◌, ◌+◌};
ghost use Rattle.fls_model.specs.Told.{changes_in};
ghost use Rattle.fls_devices.specs.Journal.{listed};

use fls_model::Flash;
use nv_base::Trace;
use std::marker::Model;

// Those that it told once, and how many more. Contracts alone read it, so that it has no end.
#[derive(Drop)]
pub struct Since<F: Flash> {
    first: Trace<F>,
    more: Trace<()>,
}

impl<F: Flash> Model for Since<F> {
    ghost use Rattle.std.specs.Prelude.{◌+◌, ℕ, length, map};
    ghost use Rattle.fls_devices.specs.Journal.{listed_first};

    ghost Value = { ℕ };

    ghost view = { λ s. listed_first (map F.told s.first.items) + length s.more.items };
}

impl<F: Flash> Since<F> {
    pub fn none() -> Since<F>
        ensures { result ≡ 0 }
    {
        Since {
            first: Trace::new(),
            more: Trace::new(),
        }
    }

    // As many as a flash tells.
    pub fn listed(flash: &F) -> Since<F>
        ensures { result ≡ listed (changes_in (F.told flash.now).bytes) }
    {
        Since {
            first: Trace::new().with(flash),
            more: Trace::new(),
        }
    }

    // One more.
    pub fn count(&mut self)
        ensures { self.new ≡ self.old + 1 }
    {
        self.more = self.more.with(&());
    }
}
