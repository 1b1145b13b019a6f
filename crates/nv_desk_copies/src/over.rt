// What a Post gives to synchronized RAM.
ghost use Rattle.std.specs.Prelude.{◌≡◌, ◌+◌, length, true, IfSome};
ghost use Rattle.block_machine.specs.Blocks.{desc_of, is_synchronized};
ghost use Rattle.ram_blocks.specs.Tries.{OthersStay};
ghost use Rattle.nv_desk_copies.specs.Front.{AreSynchronized, CopiesStay};
ghost use Rattle.nv_desk_copies.specs.Posts.{answer_in, goes_over, IsHandedOver};

use crate::synchronized::{is_synchronized, tries};
use block_machine::block_config::Config;
use block_machine::nv_base::ReqResult;
use ram_blocks::{SyncCalls, copy_in};

/// What a job ends with: its result, and whether it gives a content.
#[derive(Clone, Copy)]
pub struct End {
    pub answer: ReqResult,
    pub gives: bool,
}

/// Hands what a job gives over to the application, where it goes to synchronized RAM. It answers what the job is posted with, and
/// how many copies were refused.
#[tactic(auto, using(crate::proofs::Sizes::nothing_copied))]
pub fn hand_over<C: SyncCalls>(
    config: &Config,
    content: &[u8],
    block: u16,
    ram: bool,
    end: End,
    copies: &mut C,
) -> (End, u8)
    requires whole { IfSome (answer_in end.answer end.gives content.now).1 (λ x. length x ≡ (desc_of config.now block).length) }
    requires synchronized { AreSynchronized config.now (C.told copies.old) }
    ensures over { IsHandedOver (goes_over (desc_of config.now block) ram (answer_in end.answer end.gives content.now).1)
        (answer_in end.answer end.gives content.now) (answer_in result.0.answer result.0.gives content.now)
        result.1 ((desc_of config.now block).repeats + 1) block (C.told copies.old) (C.told copies.new) }
    ensures whole { IfSome (answer_in result.0.answer result.0.gives content.now).1 (λ x. length x ≡ (desc_of config.now block).length) }
    ensures others { OthersStay block (C.told copies.old) (C.told copies.new) }
    ensures stays { CopiesStay C.told C.is_store C.over copies.old copies.new }
{
    if ram && is_synchronized(config, block) && end.gives {
        return copied_in(config, content, block, end.answer, copies);
    }
    (end, 0)
}

// The same where it goes there.
fn copied_in<C: SyncCalls>(
    config: &Config,
    content: &[u8],
    block: u16,
    answer: ReqResult,
    copies: &mut C,
) -> (End, u8)
    requires whole { length content.now ≡ (desc_of config.now block).length }
    requires kind { is_synchronized (desc_of config.now block).ram ≡ true }
    requires synchronized { AreSynchronized config.now (C.told copies.old) }
    ensures over { IsHandedOver true (answer_in answer true content.now) (answer_in result.0.answer result.0.gives content.now)
        result.1 ((desc_of config.now block).repeats + 1) block (C.told copies.old) (C.told copies.new) }
    ensures others { OthersStay block (C.told copies.old) (C.told copies.new) }
    ensures stays { CopiesStay C.told C.is_store C.over copies.old copies.new }
{
    let count = tries(config, block);
    if copy_in(copies, block, u16::from(count), content) {
        let end = End {
            answer,
            gives: true,
        };
        return (end, 0);
    }
    let end = End {
        answer: ReqResult::NotOk,
        gives: false,
    };
    (end, count)
}
