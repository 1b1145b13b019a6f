// What is kept of a block beside its RAM.
ghost use Rattle.std.specs.Prelude.{◌≡◌, get_or, slice_set};
ghost use Rattle.block_machine.specs.State.{BlockState};
ghost use Rattle.block_machine.specs.Sweeps.{is_done};
ghost use Rattle.block_machine.specs.Steps.{flagged};
ghost use Rattle.block_states.specs.States.{no_facts, with_flags};

use block_machine::nv_base::{JobKind, ReqResult};
use ram_blocks::RamFlags;

/// The status of a block, its data index, and whether it is locked and protected (NvM_GetErrorStatus, NvM_GetDataIndex,
/// NvM_SetBlockLockStatus, NvM_SetBlockProtection).
#[derive(Clone, Copy)]
pub struct BlockFacts {
    pub status: ReqResult,
    pub index: u8,
    pub locked: bool,
    pub protected: bool,
}

// What stands for a block that isn't configured.
pub fn no_facts() -> BlockFacts
    ensures { result ≡ no_facts }
{
    BlockFacts {
        status: ReqResult::Fine,
        index: 0,
        locked: false,
        protected: false,
    }
}

// The block with an id among those that are kept.
pub fn facts_at(facts: &[BlockFacts], id: u16) -> BlockFacts
    ensures { result ≡ get_or facts.now id no_facts }
{
    match facts.get(usize::from(id)) {
        Some(facts) => *facts,
        None => no_facts(),
    }
}

// Another one in its place, where there is one.
pub fn put_at(all: &mut Vec<BlockFacts>, id: u16, facts: BlockFacts)
    ensures { all.new.items ≡ slice_set all.old.items id facts }
{
    if usize::from(id) < all.len() {
        all[usize::from(id)] = facts;
    }
}

pub fn is_done(answer: ReqResult) -> bool
    ensures { result ≡ is_done answer }
{
    matches!(answer, ReqResult::Fine | ReqResult::RedundancyFailed)
}

// The flags of RAM that a job of this kind named.
pub fn flagged(kind: JobKind, answer: ReqResult, flags: RamFlags) -> RamFlags
    ensures { (b : BlockState) → flagged kind answer (with_flags flags b) ≡ with_flags result b }
{
    let (valid, changed) = match (kind, answer) {
        (JobKind::Read, ReqResult::Restored) | (JobKind::Restore, ReqResult::Fine) => (true, true),
        (JobKind::Read, _) => (is_done(answer), false),
        (JobKind::Write, _) if is_done(answer) => (true, false),
        _ => (flags.valid, flags.changed),
    };
    RamFlags { valid, changed }
}
