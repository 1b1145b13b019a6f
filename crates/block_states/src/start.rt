// The blocks at a start-up.
ghost use Rattle.std.specs.Prelude.{◌≡◌, ◌<◌, ◌+◌, ℕ, [], length, get_or, option_copied};
ghost use Rattle.block_machine.specs.block_config.Config.{block_of};
ghost use Rattle.block_states.specs.States.{no_facts, started_by};

use crate::BlockFacts;
use crate::facts::no_facts;
use block_machine::block_config::{BlockDesc, Config};

/// Each block as a start-up leaves it that found no mark.
pub fn start_all(facts: &mut Vec<BlockFacts>, config: &Config)
    requires { length facts.old.items ≡ length config.now.blocks + 1 }
    ensures length { length facts.new.items ≡ length facts.old.items }
    ensures each { (id : ℕ) → id < length facts.old.items → get_or facts.new.items id no_facts ≡ started_by [] id (block_of config.now id) }
{
    let _blocks = config.blocks();
    for id in 0..facts.len() {
        facts[id] = unwritten(config.block(id as u16));
    }
}

// A block as a start-up leaves it that found no mark of it.
fn unwritten(desc: Option<&BlockDesc>) -> BlockFacts
    ensures { (id : ℕ) → result ≡ started_by [] id (option_copied desc.entry) }
{
    let protected = match desc {
        Some(desc) => !desc.once && desc.protected,
        None => false,
    };
    BlockFacts {
        protected,
        ..no_facts()
    }
}
