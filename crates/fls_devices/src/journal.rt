// The operations that a device cut or failed.
ghost use Rattle.std.specs.Prelude.{◌≡◌, ◌<◌, IfOk, []};
ghost use Rattle.fls_model.specs.Told.{changes_in};
ghost use Rattle.fls_devices.specs.Journal.{empty_journal, listed, Clears, Passes, Adds};

use crate::since::Since;
use fls_model::{Call, Flash, FlashAnswer};
use std::alloc::{AllocError, Global};
use std::marker::Model;
use std::mem;

/// An operation that a device cut or failed: how many operations the inner flash was asked for since the last such
/// one, how many bytes of this one were let be done, and the answer.
#[derive(Drop)]
pub struct Event<F: Flash> {
    call: Call,
    since: Since<F>,
    keep: u32,
    answer: FlashAnswer,
}

impl<F: Flash> Model for Event<F> {
    ghost use Rattle.fls_devices.specs.Journal.{Harmed};

    ghost Value = { Harmed };

    ghost view = { λ e. record { call = e.call; since = e.since; keep = e.keep; answer = e.answer } };
}

// The events since the attach, in memory that is taken at once, and the operations since the last of them.
#[derive(Drop)]
pub struct Journal<F: Flash> {
    events: Vec<Event<F>>,
    since: Since<F>,
}

impl<F: Flash> Model for Journal<F> {
    ghost use Rattle.std.specs.Prelude.{◌-◌, length, vec_capacity};
    ghost use Rattle.fls_devices.specs.Journal.{Journaled};

    ghost Value = { Journaled };

    ghost view = { λ j. record { events = j.events.items; since = j.since; room = vec_capacity j.events - length j.events.items } };
}

impl<F: Flash> Journal<F> {
    // With room for so many events.
    pub fn make(alloc: Global, room: usize) -> Result<Journal<F>, AllocError>
        ensures { IfOk result (λ j. j ≡ empty_journal room) }
    {
        Ok(Journal {
            events: Vec::with_capacity(alloc, room)?,
            since: Since::none(),
        })
    }

    // Goes on from all operations that a flash tells.
    pub fn follow(&mut self, flash: &F)
        ensures { self.new ≡ record self.old { since = listed (changes_in (F.told flash.now).bytes) } }
    {
        self.since = Since::listed(flash);
    }

    // Begins anew.
    pub fn clear(&mut self)
        ensures { Clears self.old self.new }
    {
        self.events.clear();
        self.since = Since::none();
    }

    // An operation reached the inner flash.
    pub fn pass(&mut self)
        ensures { Passes self.old self.new }
    {
        self.since.count();
    }

    // An operation was cut or failed.
    pub fn add(&mut self, call: Call, keep: u32, answer: FlashAnswer)
        requires { 0 < self.old.room }
        ensures { Adds (record { call = call; since = self.old.since; keep = keep; answer = answer }) self.old self.new }
    {
        let since = mem::replace(&mut self.since, Since::none());
        self.events.push_reserved(Event {
            call,
            since,
            keep,
            answer,
        });
    }
}
