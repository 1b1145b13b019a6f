// Tries of a copy.
ghost use Rattle.std.specs.Prelude.{◌≡◌, ℕ, not, List, length};
ghost use Rattle.ram_blocks.specs.Told.{IsSynchronized, sizes_of, to_refuse_of};
ghost use Rattle.ram_blocks.specs.Tries.{IsOfStore, IsTried, IsHanded, Spends, is_refused, OnlyCounts, OnlyRefuses, OthersStay};

use crate::{Copied, SyncCalls};

/// What became of the tries of a copy out: one gave the whole of the store with this number; each was refused; or none gave
/// one, and the last that wasn't refused gave the store `got`, which is too old.
#[derive(Clone, Copy)]
pub enum Tried {
    Got { number: u64 },
    Refused,
    Stale { got: u64 },
}

/// Copies a store of the application that isn't older than the store `asked`, in so many tries at most.
pub fn copy_out<C: SyncCalls>(
    copies: &mut C,
    block: u16,
    asked: u64,
    tries: u16,
    into: &mut [u8],
) -> Tried
    requires { IsSynchronized (C.told copies.old) block (length into.old) }
    ensures tried { IsTried result block asked tries (C.told copies.old) (C.told copies.new) }
    ensures store { IsOfStore result into.new (λ n x. C.is_store copies.new block n x × C.looked copies.old copies.new block n) }
    ensures spends { Spends (is_refused result) tries (to_refuse_of (C.told copies.old) block) (to_refuse_of (C.told copies.new) block) }
    ensures counts { OnlyCounts block (C.told copies.old) (C.told copies.new) }
    ensures sizes { sizes_of (C.told copies.new) ≡ sizes_of (C.told copies.old) }
    ensures refuses { OnlyRefuses (C.told copies.old) (C.told copies.new) }
    ensures stores_stay { (b n : ℕ) (x : List ℕ) → C.is_store copies.old b n x → C.is_store copies.new b n x }
    ensures stays_over { (first : C) → C.over first copies.old → C.over first copies.new }
{
    let mut last = None;
    for i in 0..tries {
        match copies.copy_out(block, into) {
            Copied::Got { number } => {
                if asked <= number {
                    return Tried::Got { number };
                }
                last = Some(number);
            }
            Copied::Refused => {}
        }
    }
    match last {
        Some(got) => Tried::Stale { got },
        None => Tried::Refused,
    }
}

/// Hands a whole content over to the application, in so many tries at most. Answers whether it took it.
pub fn copy_in<C: SyncCalls>(copies: &mut C, block: u16, tries: u16, from: &[u8]) -> bool
    requires { IsSynchronized (C.told copies.old) block (length from.now) }
    ensures handed { IsHanded result block tries from.now (C.told copies.old) (C.told copies.new) }
    ensures spends { Spends (not result) tries (to_refuse_of (C.told copies.old) block) (to_refuse_of (C.told copies.new) block) }
    ensures others { OthersStay block (C.told copies.old) (C.told copies.new) }
    ensures sizes { sizes_of (C.told copies.new) ≡ sizes_of (C.told copies.old) }
    ensures refuses { OnlyRefuses (C.told copies.old) (C.told copies.new) }
    ensures stores_stay { (b n : ℕ) (x : List ℕ) → C.is_store copies.old b n x → C.is_store copies.new b n x }
    ensures stays_over { (first : C) → C.over first copies.old → C.over first copies.new }
{
    for i in 0..tries {
        if let Copied::Got { .. } = copies.copy_in(block, from) {
            return true;
        }
    }
    false
}
