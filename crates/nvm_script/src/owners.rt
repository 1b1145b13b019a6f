// The callers that store into synchronized RAM.
ghost use Rattle.std.specs.Prelude.{◌≡◌, ◌<◌, length, replicate, None, IfOk, option_copied, true, ◌==◌};
ghost use Rattle.std.specs.Option.{option_map_or};
ghost use Rattle.nvm_script.specs.Owners.{ram_block_of, may_own, keeps_owner, owner_in, noted_at, noted};

use crate::rules::sync_length;
use crate::{Mode, StepKind};
use block_config::Config;
use nv_base::Request;
use std::alloc::{AllocError, Global};
use std::marker::Model;

/// For each block the caller of its first store or RAM write, if there was one. Contracts see the table.
#[derive(Drop)]
pub struct Owners {
    callers: Vec<Option<u8>>,
}

impl Model for Owners {
    ghost use Rattle.std.specs.Prelude.{ℕ, List, Option};

    ghost Value = { List (Option ℕ) };

    ghost view = { λ o. o.callers.items };
}

// The block whose RAM a step stores into or writes.
fn ram_block(kind: &StepKind) -> Option<u16>
    ensures { result ≡ ram_block_of kind.now }
{
    match kind {
        StepKind::Store { block, content: _ } => Some(*block),
        StepKind::Ask(
            Request::Write {
                block,
                content: None,
                store: _,
            },
        ) => Some(*block),
        _ => None,
    }
}

fn is_owner(caller: u8, owner: Option<u8>) -> bool
    ensures { result ≡ option_map_or (λ o. o == caller) owner true }
{
    match owner {
        Some(owner) => owner == caller,
        None => true,
    }
}

impl Owners {
    /// No owners of the blocks below a number.
    pub fn make(alloc: Global, blocks: u16) -> Result<Owners, AllocError>
        ensures { IfOk result (λ o. o ≡ replicate blocks None) }
    {
        Ok(Owners {
            callers: vec![in alloc; None; usize::from(blocks)]?,
        })
    }

    fn owner(&self, block: u16) -> Option<u8>
        ensures { result ≡ owner_in self.now block }
    {
        match self.callers.get(usize::from(block)) {
            Some(owner) => *owner,
            None => None,
        }
    }

    fn may_own(&self, config: &Config, caller: u8, block: Option<u16>) -> bool
        ensures { result ≡ option_map_or (may_own config.now (owner_in self.now) caller) block true }
    {
        match block {
            Some(block) => {
                sync_length(config, block).is_none() || is_owner(caller, self.owner(block))
            }
            None => true,
        }
    }

    /// Whether the step keeps the owners.
    pub fn allow(&self, config: &Config, mode: Mode, caller: u8, kind: &StepKind) -> bool
        ensures { result ≡ keeps_owner config.now mode (owner_in self.now) caller kind.now }
    {
        match mode {
            Mode::Play => true,
            Mode::Run => self.may_own(config, caller, ram_block(kind)),
        }
    }

    fn note_block(&mut self, caller: u8, block: Option<u16>)
        ensures { self.new ≡ noted_at self.old caller block }
    {
        if let Some(block) = block {
            let place = usize::from(block);
            if place < self.callers.len() && self.callers[place].is_none() {
                self.callers[place] = Some(caller);
            }
        }
    }

    /// Notes the owner of what the step stores into or writes.
    pub fn note(&mut self, caller: u8, kind: &StepKind)
        ensures { self.new ≡ noted self.old caller kind.now }
    {
        self.note_block(caller, ram_block(kind));
    }
}
