//! The rule of the table, and what each kind of step tells.
use crate::buffer::Buffer;
use crate::view::View;
use atomic_table::{Join, Play, Split, TableRule};

/// One word and three slots, of which one is at home. PROTOCOL.md shows them.
pub struct ThreeBuffers;

impl<N> TableRule<Buffer<N>, View<N>, usize> for ThreeBuffers {
    ghost use Rattle.ram_mirrors.specs.Stores.{stored_in};
    ghost use Rattle.ram_mirrors.specs.Exchange.{Mirrored, maker};

    ghost holds = { λ size s. Mirrored stored_in size s };

    ghost first = { maker };
}

/// The owner's content becomes the newest store.
pub struct StoreSwap;

impl<N> Play<Buffer<N>, View<N>> for StoreSwap {
    ghost use Rattle.ram_mirrors.specs.Stores.{stored_in};
    ghost use Rattle.ram_mirrors.specs.Exchange.{Stores};

    ghost then = { Stores stored_in };
}

/// The taker reads whether there was a store since its last take.
pub struct Look;

impl<N> Play<Buffer<N>, View<N>> for Look {
    ghost use Rattle.ram_mirrors.specs.Exchange.{Looks};

    ghost then = { Looks };
}

/// The taker gets the newest store.
pub struct TakeSwap;

impl<N> Play<Buffer<N>, View<N>> for TakeSwap {
    ghost use Rattle.ram_mirrors.specs.Stores.{stored_in};
    ghost use Rattle.ram_mirrors.specs.Exchange.{Takes};

    ghost then = { Takes stored_in };
}

/// The owner takes its first slot.
pub struct OwnerBegins;

impl<S, N> Play<S, View<N>> for OwnerBegins {
    ghost use Rattle.ram_mirrors.specs.Exchange.{BeginsOwner};

    ghost then = { BeginsOwner };
}

/// The taker takes its first slot.
pub struct TakerBegins;

impl<S, N> Play<S, View<N>> for TakerBegins {
    ghost use Rattle.ram_mirrors.specs.Exchange.{BeginsTaker};

    ghost then = { BeginsTaker };
}

/// The taker puts its slot back, before the end.
pub struct TakerEnds;

impl<S, N> Play<S, View<N>> for TakerEnds {
    ghost use Rattle.ram_mirrors.specs.Exchange.{EndsTaker};

    ghost then = { EndsTaker };
}

/// The maker's seat is cut into the owner's and the taker's, and at the end they are one again.
pub struct Halves;

impl<N> Split<View<N>> for Halves {
    ghost use Rattle.ram_mirrors.specs.Exchange.{owner_half, taker_half};

    ghost left = { owner_half };

    ghost right = { taker_half };
}

impl<N> Join<View<N>> for Halves {
    ghost use Rattle.ram_mirrors.specs.Exchange.{whole_of, nobody};

    ghost both = { whole_of };

    ghost spent = { nobody };
}
