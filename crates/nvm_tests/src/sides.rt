// A synchronized block over mirrors, the application in one thread and the driver's copies in another.
ghost use Rattle.std.specs.Prelude.{◌≡◌, true};
ghost use Rattle.ram_mirrors_sync.specs.Blocks.{AreEndsOf, AreIn, AreSidesOf, IsSideIn};

use crate::found::{Found, LOOKS};
use nvm_laws::{Config, Copied, SyncCalls, read};
use ram_mirrors_sync::{Ends, MirrorSync, Mirrors, Side, Sides, close, make};
use std::alloc::Global;
use std::thread;
use std::thread::{Threads, join_mut};

const BLOCKS: &str =
    "{\"id\":1,\"page\":16,\"sector\":256,\"sectors\":8,\"standard\":8,\"immediate\":4,\"blocks\":[{\"length\":8,\"ram\":\"sync\"},{\"length\":3}]}";

const STORES: u64 = 100_000;

fn store_all(mirrors: &Mirrors<()>, side: &mut Side<()>)
    requires own { IsSideIn mirrors.now side.old }
    ensures own { IsSideIn mirrors.now side.new }
    ensures block { side.new.block ≡ side.old.block }
{
    for i in 0..STORES {
        if side.bytes() == 8 {
            side.store(mirrors, &(i + 1).to_le_bytes(), None);
        }
    }
}

fn copy_once(sync: &mut MirrorSync<()>, found: &mut Found) {
    let mut into = [0; 8];
    if sync.bytes(2) == Some(8) {
        match sync.copy_out(2, &mut into) {
            Copied::Got { number } => found.note(number, found.last, &into),
            Copied::Refused => found.wrong = found.wrong.saturating_add(1),
        }
    }
}

// Copies until the last store is copied.
fn copy_all(sync: &mut MirrorSync<()>, found: &mut Found) {
    for _ in 0..LOOKS {
        copy_once(sync, found);
        if found.last == STORES {
            return;
        }
        thread::yield_now();
    }
}

// Whether a look without a copy shows the last store.
fn is_shown(sync: &mut MirrorSync<()>) -> bool {
    sync.bytes(2) == Some(8) && sync.look(2) == STORES
}

// Whether a content that the driver hands over comes to the application once.
fn is_handed(mirrors: &Mirrors<()>, side: &mut Side<()>, sync: &mut MirrorSync<()>) -> bool
    requires own { IsSideIn mirrors.now side.old }
{
    let handed = sync.bytes(2) == Some(8)
        && matches!(sync.copy_in(2, b"a letter"), Copied::Got { number: 1 })
        && sync.refusals(2) == 0;
    let taken =
        matches!(side.newest(mirrors), Some((1, content)) if content == b"a letter".as_slice());
    handed
        && taken
        && matches!(side.refresh(mirrors), None)
        && side.content() == b"a letter".as_slice()
}

// Whether each copy was a store, in order, up to the last one.
fn are_copied<R: Threads>(
    rt: &R,
    mirrors: &Mirrors<()>,
    side: &mut Side<()>,
    sync: &mut MirrorSync<()>,
) -> bool
    requires own { IsSideIn mirrors.now side.old }
    ensures own { IsSideIn mirrors.now side.new }
{
    let mut found = Found::new();
    join_mut(
        rt,
        &mut || store_all(mirrors, side),
        &mut || copy_all(sync, &mut found),
    );
    found.wrong == 0 && found.last == STORES && 0 < found.count
}

// Whether the side of block 2 is taken, and shares its mirrors with the driver's copies.
fn are_shared<R: Threads>(
    rt: &R,
    mirrors: &Mirrors<()>,
    sides: &mut Sides<()>,
    sync: &mut MirrorSync<()>,
) -> bool
    requires own { AreSidesOf mirrors.now sides.old }
{
    match sides.take(2) {
        Some(mut side) => !sides.has(2) && is_served(rt, mirrors, &mut side, sync),
        None => false,
    }
}

fn is_served<R: Threads>(
    rt: &R,
    mirrors: &Mirrors<()>,
    side: &mut Side<()>,
    sync: &mut MirrorSync<()>,
) -> bool
    requires own { IsSideIn mirrors.now side.old }
{
    side.block() == 2
        && are_copied(rt, mirrors, side, sync)
        && is_shown(sync)
        && is_handed(mirrors, side, sync)
}

fn over_mirrors<R: Threads>(rt: &R, alloc: Global, config: &Config) -> bool {
    match make::<()>(alloc, config) {
        Ok((mirrors, ends, mut sides)) => {
            let mut sync = MirrorSync::of(&mirrors, ends);
            are_shared(rt, &mirrors, &mut sides, &mut sync)
        }
        Err(_) => false,
    }
}

fn over_blocks<R: Threads>(rt: &R, alloc: Global) -> bool {
    match read(alloc, BLOCKS.as_bytes()) {
        Ok(config) => over_mirrors(rt, alloc, &config),
        Err(_) => false,
    }
}

#[test]
fn stores_reach_the_driver_and_what_was_read_the_application(rt: HostRuntime) {
    assert!(rt; over_blocks(&rt, rt.alloc()));
}

// Whether a side that was taken and put back is in.
fn is_put_back(mirrors: &Mirrors<()>, sides: &mut Sides<()>) -> bool
    requires own { AreSidesOf mirrors.now sides.old }
    ensures own { AreSidesOf mirrors.now sides.new }
    ensures all { result ≡ true → AreIn mirrors.now sides.new }
{
    if let Some(side) = sides.take(2) {
        sides.put(side);
    }
    sides.are_in(mirrors)
}

// Whether all mirrors end with their sides.
fn end(mirrors: Mirrors<()>, ends: Ends<()>, sides: Sides<()>) -> bool
    requires ends { AreEndsOf mirrors ends }
    requires sides { AreSidesOf mirrors sides }
{
    let mut sides = sides;
    let put_back = is_put_back(&mirrors, &mut sides);
    let ends = MirrorSync::of(&mirrors, ends).into_ends();
    if put_back {
        close(mirrors, ends, sides);
    }
    put_back
}

fn are_closed(alloc: Global, config: &Config) -> bool {
    match make::<()>(alloc, config) {
        Ok((mirrors, ends, sides)) => end(mirrors, ends, sides),
        Err(_) => false,
    }
}

fn blocks_are_closed(alloc: Global) -> bool {
    match read(alloc, BLOCKS.as_bytes()) {
        Ok(config) => are_closed(alloc, &config),
        Err(_) => false,
    }
}

#[test]
fn mirrors_end_with_all_their_sides(rt: HostRuntime) {
    assert!(rt; blocks_are_closed(rt.alloc()));
}

// Whether sides of nobody have no block's side in.
fn nobody_has(alloc: Global, mirrors: &Mirrors<()>, sides: &Sides<()>) -> bool {
    match Sides::none(alloc, sides) {
        Ok(none) => has_none(mirrors, sides, &none),
        Err(_) => false,
    }
}

fn has_none(mirrors: &Mirrors<()>, sides: &Sides<()>, none: &Sides<()>) -> bool {
    sides.has(2) && !none.has(2) && !none.has(3) && !none.are_in(mirrors)
}

fn no_side_is_in(alloc: Global, config: &Config) -> bool {
    match make::<()>(alloc, config) {
        Ok((mirrors, _ends, sides)) => nobody_has(alloc, &mirrors, &sides),
        Err(_) => false,
    }
}

fn no_block_is_in(alloc: Global) -> bool {
    match read(alloc, BLOCKS.as_bytes()) {
        Ok(config) => no_side_is_in(alloc, &config),
        Err(_) => false,
    }
}

#[test]
fn sides_of_nobody_have_no_block(rt: HostRuntime) {
    assert!(rt; no_block_is_in(rt.alloc()));
}
