//! The two ends of a mirror.
ghost use Rattle.std.specs.Prelude.{◌≡◌, IfSome, IsSome, IsNone, MatchOption, None};
ghost use Rattle.ram_mirrors.specs.Stores.{store_number};
ghost use Rattle.ram_mirrors.specs.Ends.{counted};

use crate::buffer::Buffer;
use crate::view::View;
use atomic_table::Seat;
use std::alloc::Global;
use std::marker::Model;

/// The end that stores. Contracts see which mirror it belongs to, and all its stores.
#[derive(Drop)]
pub struct Owner<N> {
    pub(crate) seat: Seat<Buffer<N>, View<N>>,
    pub(crate) slot: usize,
    pub(crate) count: u64,
    pub(crate) buffer: Buffer<N>,
    pub(crate) alloc: Global,
}

impl<N> Model for Owner<N> {
    ghost use Rattle.std.specs.Prelude.{◌≡◌, ◌<◌, [], ◌∷◌, length, true};
    ghost use Rattle.ram_mirrors.specs.Stores.{store_number};
    ghost use Rattle.ram_mirrors.specs.Ends.{OwnerValue};

    ghost Value = { OwnerValue N };

    ghost view = { λ o. record { table = o.seat.table_id; size = o.seat.me.0.size; stores = o.seat.me.0.stores } };

    ghost invariant = { λ o. (o.seat.me.0.owns ≡ true) × (o.seat.me.0.owner_out ≡ true) × (length o.buffer.bytes.items ≡ o.seat.me.0.size) × (o.count ≡ store_number (length o.seat.me.0.stores)) × (o.slot < 4) × (o.slot ≡ o.seat.me.0.owner_slot) × ((b : _) × (o.seat.me.1 ≡ (o.slot, b) ∷ [])) };
}

/// The end that takes. Contracts see which mirror it belongs to, the pairs that it got, the content of the last of
/// them with what was handed along, how often it looked, the number of the newest store that it was shown, and all that it was shown.
#[derive(Drop)]
pub struct Taker<N> {
    pub(crate) seat: Seat<Buffer<N>, View<N>>,
    pub(crate) slot: usize,
    pub(crate) number: u64,
    pub(crate) count: u64,
    pub(crate) buffer: Buffer<N>,
    pub(crate) alloc: Global,
}

impl<N> Model for Taker<N> {
    ghost use Rattle.std.specs.Prelude.{◌≡◌, ◌<◌, [], ◌∷◌, length, true, false};
    ghost use Rattle.ram_mirrors.specs.Stores.{store_number};
    ghost use Rattle.ram_mirrors.specs.Ends.{TakerValue, counted};

    ghost Value = { TakerValue N };

    ghost view = { λ t. record { table = t.seat.table_id; size = t.seat.me.0.size; got = t.seat.me.0.got; shown = t.seat.me.0.shown; looks = t.seat.me.0.looks; content = t.buffer.bytes.items; note = t.buffer.note; all_shown = t.seat.me.0.all_shown } };

    ghost invariant = { λ t.
        (t.seat.me.0.takes ≡ true) × (t.seat.me.0.taker_out ≡ true) × (length t.buffer.bytes.items ≡ t.seat.me.0.size)
        × (t.slot < 4) × (t.slot ≡ t.seat.me.0.taker_slot) × ((b : _) × (t.seat.me.1 ≡ (t.slot, b) ∷ [])) × (t.seat.me.0.owns ≡ false)
        × (t.seat.me.0.shown ≡ t.seat.me.0.taken) × (t.number ≡ store_number t.seat.me.0.shown) × (t.count ≡ counted t.seat.me.0.looks) };
}

impl<N: Drop> Taker<N> {
    /// The content of the last take, before the first one zeros.
    pub fn content(&self) -> &[u8]
        ensures { result.now ≡ self.now.content }
    {
        self.buffer.bytes.as_slice()
    }

    /// Takes out what was handed along with the store of the last take, if it is still there.
    pub fn take_note(&mut self) -> Option<N>
        ensures taken { result ≡ self.old.note }
        ensures left { self.new ≡ record self.old { note = None } }
    {
        self.buffer.note.take()
    }

    /// Puts it back, or another in its place.
    pub fn put_note(&mut self, note: Option<N>)
        ensures { self.new ≡ record self.old { note = note } }
    {
        self.buffer.note = note;
    }

    /// How often this end looked at the word. At 2^64 - 1 it stands still.
    pub fn looks(&self) -> u64
        ensures { result ≡ counted self.now.looks }
    {
        self.count
    }

    /// The number of the newest store that the word showed at the last look, 0 for none. At 2^60 it stands still.
    pub fn shown(&self) -> u64
        ensures { result ≡ store_number self.now.shown }
    {
        self.number
    }

    pub(crate) fn pair(&self, found: Option<u64>) -> Option<(u64, &[u8])>
        ensures { MatchOption found (IsNone result) (λ n. IfSome result (λ p. (p.0 ≡ n) × (p.1.now ≡ self.now.content)) × IsSome result) }
    {
        match found {
            None => None,
            Some(n) => Some((n, self.buffer.bytes.as_slice())),
        }
    }
}
