// The end of mirrors.
ghost use Rattle.std.specs.Prelude.{IfSome};
ghost use Rattle.ram_mirrors_sync.specs.Ends.{IsEndOf};
ghost use Rattle.ram_mirrors_sync.specs.Blocks.{AreClosed, AreEndsOf, AreIn, AreSidesOf, HasEnd, IsClosed, IsSideBy, IsSideOf};

use crate::end::{End, Ends};
use crate::mirrors::{Mirrors, Pair};
use crate::side::Side;
use crate::sides::{Sides, taken};

/// Ends all mirrors, with the driver's ends and the application's sides, which are all in. Each pair that an end took is a store
/// of the other end, whole, with its number.
pub fn close<N: Drop>(mirrors: Mirrors<N>, ends: Ends<N>, sides: Sides<N>)
    requires ends { AreEndsOf mirrors ends }
    requires sides { AreSidesOf mirrors sides }
    requires all { AreIn mirrors sides }
    ensures { AreClosed ends sides }
{
    let Mirrors { mut pairs } = mirrors;
    let Ends { mut ends } = ends;
    let Sides { mut sides } = sides;
    for place in 0..pairs.len() {
        let pair = taken(&mut pairs, place);
        let end = taken(&mut ends, place);
        let side = taken(&mut sides, place);
        close_one(pair, end, side);
    }
}

// Ends the mirrors of a block that has them.
fn close_one<N: Drop>(pair: Option<Pair<N>>, end: Option<End<N>>, side: Option<Side<N>>)
    requires end { HasEnd pair end }
    requires side { IfSome side (λ s. IsSideBy pair s) }
    ensures { IfSome end (λ e. IfSome side (λ s. IsClosed e s)) }
{
    match end {
        Some(end) => match side {
            Some(side) => match pair {
                Some(pair) => close_block(pair, end, side),
                None => unreachable!(),
            },
            None => {}
        },
        None => {}
    }
}

// Ends the mirrors of a block.
fn close_block<N: Drop>(pair: Pair<N>, end: End<N>, side: Side<N>)
    requires end { IsEndOf pair end }
    requires side { IsSideOf pair side }
    ensures { IsClosed end side }
{
    let Pair { up, down } = pair;
    let End {
        up: taker,
        down: handing,
        ..
    } = end;
    let Side {
        up: owner,
        down: reading,
        ..
    } = side;
    up.close(owner, taker);
    down.close(handing, reading);
}
