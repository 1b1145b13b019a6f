// Mirrors that are made.
ghost use Rattle.std.specs.Prelude.{◌≡◌, ◌++◌, ◌∷◌, [], ◌<◌, ℕ, length, map, replicate, option_copied, option_map, IfOk, IfSome, OnOk, true, Some};
ghost use Rattle.block_machine.specs.block_config.Rules.{IsLegalBlock};
ghost use Rattle.block_machine.specs.Blocks.{desc_of, is_synchronized};
ghost use Rattle.ram_blocks.specs.Told.{IsSynchronized};
ghost use Rattle.ram_mirrors_sync.specs.Blocks.{AreMade, AreEndsOf, AreSidesOf, AreIn, IsMade, first_of, told_by};

use crate::end::{End, Ends};
use crate::mirrors::{Mirrors, Pair};
use crate::side::Side;
use crate::sides::Sides;
use block_machine::block_config::{BlockDesc, Config, RamKind};
use std::alloc::{AllocError, Global};

/// The mirrors of a configuration's synchronized blocks before the first store, with the driver's ends, and the application's
/// sides, which are all in. This alone takes memory.
pub fn make<N: Drop>(
    alloc: Global,
    config: &Config,
) -> Result<(Mirrors<N>, Ends<N>, Sides<N>), AllocError>
    ensures made { IfOk result (λ r. AreMade config.now r.0 r.1 r.2) }
    ensures ends { IfOk result (λ r. AreEndsOf r.0 r.1) }
    ensures sides { IfOk result (λ r. AreSidesOf r.0 r.2 × AreIn r.0 r.2) }
    ensures synchronized { IfOk result (λ r. (id : ℕ) → is_synchronized (desc_of config.now id).ram ≡ true → IsSynchronized (map told_by r.1) id (desc_of config.now id).length) }
{
    let many = usize::from(config.blocks()) + 1;
    let mut pairs = Vec::with_capacity(alloc, many)?;
    let mut ends = Vec::with_capacity(alloc, many)?;
    let mut sides = Vec::with_capacity(alloc, many)?;
    push_block(None, &mut pairs, &mut ends, &mut sides)?;
    for i in 0..config.blocks() {
        let made = block_of(alloc, i + 1, config.block(i + 1))?;
        push_block(made, &mut pairs, &mut ends, &mut sides)?;
    }
    Ok((Mirrors { pairs }, Ends { ends }, Sides { sides }))
}

type Made<N> = Option<(Pair<N>, End<N>, Side<N>)>;

// Puts a block's mirrors, ends and side behind those of the blocks before. Where one isn't taken, the others are.
fn push_block<N: Drop>(
    made: Made<N>,
    pairs: &mut Vec<Option<Pair<N>>>,
    ends: &mut Vec<Option<End<N>>>,
    sides: &mut Vec<Option<Side<N>>>,
) -> Result<(), AllocError>
    ensures pairs { OnOk result (pairs.new.items ≡ pairs.old.items ++ option_map (λ m. m.0) made ∷ []) }
    ensures ends { OnOk result (ends.new.items ≡ ends.old.items ++ option_map (λ m. m.1) made ∷ []) }
    ensures sides { OnOk result (sides.new.items ≡ sides.old.items ++ option_map (λ m. m.2) made ∷ []) }
{
    let (pair, end, side) = parts_of(made);
    let first = push(pairs, pair);
    let second = push(ends, end);
    let third = push(sides, side);
    first.and(second).and(third)
}

fn parts_of<N>(made: Made<N>) -> (Option<Pair<N>>, Option<End<N>>, Option<Side<N>>)
    ensures { result ≡ (option_map (λ m. m.0) made, option_map (λ m. m.1) made, option_map (λ m. m.2) made) }
{
    match made {
        Some((pair, end, side)) => (Some(pair), Some(end), Some(side)),
        None => (None, None, None),
    }
}

fn push<T: Drop>(list: &mut Vec<T>, item: T) -> Result<(), AllocError>
    ensures { OnOk result (list.new.items ≡ list.old.items ++ item ∷ []) }
{
    list.push(item)?;
    Ok(())
}

// The mirrors of a block, if it is synchronized.
fn block_of<N: Drop>(
    alloc: Global,
    id: u16,
    desc: Option<&BlockDesc>,
) -> Result<Made<N>, AllocError>
    requires legal { IfSome desc (λ d. is_synchronized d.now.ram ≡ true → length (first_of d.now) ≡ d.now.length) }
    ensures made { IfOk result (λ m. IsMade id (option_copied desc.entry) (option_map (λ x. x.0) m) (option_map (λ x. x.1) m) (option_map (λ x. x.2) m)) }
{
    match desc {
        Some(desc) if desc.ram == RamKind::Sync => Ok(Some(mirrored(alloc, id, desc)?)),
        _ => Ok(None),
    }
}

fn mirrored<N: Drop>(
    alloc: Global,
    id: u16,
    desc: &BlockDesc,
) -> Result<(Pair<N>, End<N>, Side<N>), AllocError>
    requires synchronized { is_synchronized desc.now.ram ≡ true }
    requires first { length (first_of desc.now) ≡ desc.now.length }
    ensures { IfOk result (λ m. IsMade id (Some desc.now) (Some m.0) (Some m.1) (Some m.2)) }
{
    let first = first_content(alloc, desc)?;
    let (up, owner, taker) = ram_mirrors::make(alloc, desc.length)?;
    let (down, handing, reading) = ram_mirrors::make(alloc, desc.length)?;
    Ok((
        Pair { up, down },
        End {
            up: taker,
            down: handing,
            first,
        },
        Side {
            block: id,
            up: owner,
            down: reading,
        },
    ))
}

// The defaults of a block, or zeros.
fn first_content(alloc: Global, desc: &BlockDesc) -> Result<Vec<u8>, AllocError>
    ensures { IfOk result (λ v. v.items ≡ first_of desc.now) }
{
    match &desc.defaults {
        Some(defaults) => Vec::from_slice(alloc, defaults.as_slice()),
        None => vec![in alloc; 0u8; usize::from(desc.length)],
    }
}
