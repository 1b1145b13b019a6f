// A mirror in two threads.
ghost use Rattle.std.specs.Prelude.{◌≡◌, ◌≤◌};
ghost use Rattle.ram_mirrors.specs.Ends.{IsOwnerOf, IsTakerOf};

use crate::found::{Found, LOOKS};
use ram_mirrors::{Mirror, Owner, Taker, make};
use std::alloc::Global;
use std::thread;
use std::thread::{Threads, join_mut};

const STORES: u64 = 1_000_000;

fn store_all(mirror: &Mirror<u64>, owner: &mut Owner<u64>)
    requires own { IsOwnerOf mirror.now owner.old }
    requires size { mirror.now.size ≡ 8 }
    ensures own { IsOwnerOf mirror.now owner.new }
{
    for i in 0..STORES {
        mirror.store(owner, &(i + 1).to_le_bytes(), Some(i + 1));
    }
}

// Takes until the last store was taken.
fn take_all(mirror: &Mirror<u64>, taker: &mut Taker<u64>, found: &mut Found)
    requires own { IsTakerOf mirror.now taker.old }
    ensures own { IsTakerOf mirror.now taker.new }
{
    for _ in 0..LOOKS {
        match taker.newest(mirror) {
            None => thread::yield_now(),
            Some((number, content)) => found.note(number, found.last.saturating_add(1), content),
        }
        if found.last == STORES {
            return;
        }
    }
}

// Whether some stores were taken, none wrong, and the last one at the end.
fn is_whole(found: &Found) -> bool {
    found.wrong == 0 && found.last == STORES && 0 < found.count && found.count <= STORES
}

// Whether the stores were taken whole, and the taker shows the last one.
fn are_whole<R: Threads>(
    rt: &R,
    mirror: &Mirror<u64>,
    owner: &mut Owner<u64>,
    taker: &mut Taker<u64>,
) -> bool
    requires owner { IsOwnerOf mirror.now owner.old }
    requires taker { IsTakerOf mirror.now taker.old }
    requires size { mirror.now.size ≡ 8 }
    ensures owner { IsOwnerOf mirror.now owner.new }
    ensures taker { IsTakerOf mirror.now taker.new }
{
    let mut found = Found::new();
    join_mut(
        rt,
        &mut || store_all(mirror, owner),
        &mut || take_all(mirror, taker, &mut found),
    );
    is_whole(&found)
        && found.count <= taker.looks()
        && taker.shown() == STORES
        && taker.content() == STORES.to_le_bytes().as_slice()
        && taker.take_note() == Some(STORES)
}

fn are_exchanged<R: Threads>(rt: &R, alloc: Global) -> bool {
    let Ok((mirror, mut owner, mut taker)) = make(alloc, 8) else {
        return false;
    };
    let whole = are_whole(rt, &mirror, &mut owner, &mut taker);
    mirror.close(owner, taker);
    whole
}

#[test]
fn each_of_a_million_stores_is_whole(rt: HostRuntime) {
    assert!(rt; are_exchanged(&rt, rt.alloc()));
}
