// The blocks by id.
ghost use Rattle.std.specs.Prelude.{◌≡◌, ◌≤◌, ◌<◌, ◌++◌, ◌∷◌, ℕ, List, ◌&&◌, ◌||◌, true, [], length, get_or, IfOk, IfSome, option_copied, if◌then◌else◌};
ghost use Rattle.block_machine.specs.Words.{Instance, Mark};
ghost use Rattle.block_machine.specs.Blocks.{desc_of, keeps_ram};
ghost use Rattle.block_machine.specs.Steps.{ended, flagged, protects};
ghost use Rattle.block_states.specs.States.{rooms_of, state_at, changed_at, started_blocks, facts_of, with_facts, flags_of, with_flags, given_to};

use crate::BlockFacts;
use crate::facts::{facts_at, flagged, is_done, no_facts, put_at};
use crate::start::start_all;
use block_machine::block_config::{Config, RamKind};
use block_machine::nv_base::{JobKind, ReqResult};
use ram_blocks::{RamBlocks, RamFlags};
use std::alloc::{AllocError, Global};
use std::marker::Model;

/// The state of each block, by id from 0. Contracts see the machine's blocks, none before the first start-up, and of
/// each the bytes of RAM that the manager keeps. A change of an id that isn't configured changes nothing.
#[derive(Drop)]
pub struct BlockStates {
    started: bool,
    facts: Vec<BlockFacts>,
    ram: RamBlocks,
}

impl Model for BlockStates {
    ghost use Rattle.std.specs.Prelude.{◌≡◌, length};
    ghost use Rattle.block_states.specs.States.{KeptBlocks};
    ghost use Rattle.block_states.specs.Shown.{shown_states, rooms_in};

    ghost Value = { KeptBlocks };

    ghost view = { λ b. record { states = shown_states b.started b.facts.items b.ram; rooms = rooms_in b.ram } };

    ghost invariant = { λ b. length b.facts.items ≡ length b.ram };
}

impl BlockStates {
    /// The blocks of a configuration before the first start-up. It takes all the memory that they ever need.
    pub fn make(alloc: Global, config: &Config) -> Result<BlockStates, AllocError>
        ensures { IfOk result (λ b. b ≡ record { states = []; rooms = rooms_of config.now }) }
    {
        let ids = usize::from(config.blocks()) + 1;
        Ok(BlockStates {
            started: false,
            facts: vec![in alloc; no_facts(); ids]?,
            ram: RamBlocks::make(alloc, config)?,
        })
    }

    /// What is kept of a block beside its RAM.
    pub fn facts(&self, id: u16) -> BlockFacts
        ensures { result ≡ facts_of (state_at self.now.states id) }
    {
        if self.started {
            facts_at(&self.facts, id)
        } else {
            no_facts()
        }
    }

    /// What the RAM of a block holds, nothing where the manager keeps none.
    pub fn ram(&self, id: u16) -> &[u8]
        ensures value { result.now ≡ (state_at self.now.states id).ram }
        ensures room { length result.now ≤ get_or self.now.rooms id 0 }
    {
        if self.started { self.ram.get(id) } else { &[] }
    }

    /// From the first start-up on RAM holds as many bytes as there is room for.
    pub fn fills_its_rooms(&self)
        ensures { 0 < length self.now.states → (id : ℕ) → length (state_at self.now.states id).ram ≡ get_or self.now.rooms id 0 }
    {
        let _started = self.started;
    }

    /// Whether the RAM of a block is valid and changed.
    pub fn flags(&self, id: u16) -> RamFlags
        ensures { result ≡ flags_of (state_at self.now.states id) }
    {
        if self.started {
            self.ram.flags(id)
        } else {
            RamFlags {
                valid: false,
                changed: false,
            }
        }
    }

    fn set_facts(&mut self, id: u16, facts: BlockFacts)
        ensures { self.new ≡ changed_at id (with_facts facts) self.old }
    {
        put_at(&mut self.facts, id, facts);
    }

    /// Gives a block its status.
    pub fn set_status(&mut self, id: u16, status: ReqResult)
        ensures { self.new ≡ changed_at id (λ b. record b { status = status }) self.old }
    {
        let facts = self.facts(id);
        self.set_facts(id, BlockFacts { status, ..facts });
    }

    /// Sets the data index of a block.
    pub fn set_index(&mut self, id: u16, index: u8)
        ensures { self.new ≡ changed_at id (λ b. record b { index = index }) self.old }
    {
        let facts = self.facts(id);
        self.set_facts(id, BlockFacts { index, ..facts });
    }

    /// Locks a block, or unlocks it.
    pub fn set_locked(&mut self, id: u16, locked: bool)
        ensures { self.new ≡ changed_at id (λ b. record b { locked = locked }) self.old }
    {
        let facts = self.facts(id);
        self.set_facts(id, BlockFacts { locked, ..facts });
    }

    /// Protects a block, or ends its protection.
    pub fn set_protected(&mut self, id: u16, protected: bool)
        ensures { self.new ≡ changed_at id (λ b. record b { protected = protected }) self.old }
    {
        let facts = self.facts(id);
        self.set_facts(id, BlockFacts { protected, ..facts });
    }

    /// Says whether the RAM of a block is valid and changed.
    pub fn set_flags(&mut self, id: u16, flags: RamFlags)
        ensures { self.new ≡ changed_at id (with_flags flags) self.old }
    {
        self.ram.set_flags(id, flags);
    }

    /// Puts a content into the RAM of a block, of its length. It takes no memory.
    pub fn put_ram(&mut self, id: u16, content: &[u8])
        requires { length content.now ≡ get_or self.old.rooms id 0 }
        ensures { self.new ≡ changed_at id (λ b. record b { ram = content.now }) self.old }
    {
        self.ram.put(id, content);
    }

    // RAM that the manager keeps holds what was given.
    fn give(&mut self, id: u16, kept: bool, given: Option<&[u8]>)
        requires { kept ≡ true → IfSome (option_copied given) (λ x. length x ≡ get_or self.old.rooms id 0) }
        ensures { self.new ≡ changed_at id (given_to kept (option_copied given.entry)) self.old }
    {
        if let Some(content) = given
            && kept
        {
            self.put_ram(id, content);
        }
    }

    // The flags of RAM that a job named.
    fn flag(&mut self, id: u16, ram: bool, kind: JobKind, answer: ReqResult)
        ensures { self.new ≡ changed_at id (λ b. if ram then flagged kind answer b else b) self.old }
    {
        if ram {
            let flags = self.flags(id);
            self.set_flags(id, flagged(kind, answer, flags));
        }
    }

    // The status after a job, and the protection that it brings.
    fn close(&mut self, id: u16, answer: ReqResult, protects: bool)
        ensures { self.new ≡ changed_at id (λ b. record b { status = answer; protected = b.protected || protects }) self.old }
    {
        let facts = self.facts(id);
        self.set_facts(
            id,
            BlockFacts {
                status: answer,
                protected: facts.protected || protects,
                ..facts
            },
        );
    }

    /// A job of this kind ends, which named the RAM of its block or didn't, with this result, and gives a content or
    /// nothing. It takes no memory.
    pub fn end(
        &mut self,
        config: &Config,
        id: u16,
        kind: JobKind,
        ram: bool,
        answer: ReqResult,
        given: Option<&[u8]>,
    )
        requires { (ram && keeps_ram config.now id) ≡ true → IfSome (option_copied given) (λ x. length x ≡ get_or self.old.rooms id 0) }
        ensures { self.new ≡ changed_at id (ended (desc_of config.now id) (keeps_ram config.now id) kind ram answer (option_copied given.entry)) self.old }
    {
        let kept = is_kept(config, id, ram);
        let protects = protects(config, id, kind, answer);
        self.give(id, kept, given);
        self.flag(id, ram, kind, answer);
        self.close(id, answer, protects);
    }

    /// The states are as before the first start-up. The memory stays.
    pub fn forget(&mut self)
        ensures { self.new ≡ record self.old { states = [] } }
    {
        self.started = false;
    }

    /// A start-up that found no mark so far: no block is locked, each is protected as it is configured, a write-once block isn't, and
    /// RAM is zeros. It takes no memory.
    pub fn start_up(&mut self, config: &Config)
        requires { self.old.rooms ≡ rooms_of config.now }
        ensures { self.new ≡ record self.old { states = started_blocks config.now [] } }
    {
        self.started = true;
        self.ram.clear();
        start_all(&mut self.facts, config);
    }

    /// The start-up found a mark of this block too, behind the others: a write-once block is protected. It takes no memory.
    pub fn note_mark(&mut self, config: &Config, block: u16)
        ensures { (marks : List (Instance × Mark)) (i : Instance) (mark : Mark) → self.old.states ≡ started_blocks config.now marks → i.block ≡ block
            → self.new ≡ record self.old { states = started_blocks config.now (marks ++ (i, mark) ∷ []) } }
    {
        if is_once(config, block) {
            self.set_protected(block, true);
        }
    }
}

// Whether a job names RAM that the manager keeps.
fn is_kept(config: &Config, id: u16, ram: bool) -> bool
    ensures { result ≡ (ram && keeps_ram config.now id) }
{
    ram && (id == 1 || matches!(config.block(id), Some(desc) if desc.ram == RamKind::Permanent))
}

// Whether a block is a write-once block.
fn is_once(config: &Config, id: u16) -> bool
    ensures { result ≡ (desc_of config.now id).once }
{
    matches!(config.block(id), Some(desc) if desc.once)
}

// Whether such an end protects a block.
fn protects(config: &Config, id: u16, kind: JobKind, answer: ReqResult) -> bool
    ensures { result ≡ protects (desc_of config.now id) kind answer }
{
    matches!(config.block(id), Some(desc) if desc.once) && kind == JobKind::Write && is_done(answer)
}
