// Whether a mark may stand.
ghost use Rattle.std.specs.Prelude.{◌↔◌, ◌≤◌, ℕ, IsTrue, length, take};
ghost use Rattle.block_machine.specs.Blocks.{instance_at};
ghost use Rattle.block_machine.specs.Steps.{after};
ghost use Rattle.block_machine.specs.Legal.{IsLegal};
ghost use Rattle.block_machine.specs.History.{MayStandIn};
ghost use Rattle.rows_histories.specs.Instances.{IsConfigured};

use crate::instances::is_configured;
use crate::seen::Seen;
use block_machine::block_config::Config;
use block_machine::nv_base::{History, Instance, Mark};

/// Whether a start-up behind a legal history may find this mark in an instance: the mark is settled there, or a job took
/// it since. In an instance that isn't configured, and before the first start-up, none may stand.
pub fn allows(config: &Config, history: &History, instance: Instance, mark: &Mark) -> bool
    ensures { (cap : ℕ) → IsLegal config.now cap history.now.entries
        → IsTrue result ↔ MayStandIn (instance_at (after config.now history.now.entries) instance) mark.now }
{
    allows_behind(config, history, history.len(), instance, mark)
}

/// The same behind the first `count` entries.
pub fn allows_behind(
    config: &Config,
    history: &History,
    count: u32,
    instance: Instance,
    mark: &Mark,
) -> bool
    requires { count ≤ length history.now.entries }
    ensures { (cap : ℕ) → IsLegal config.now cap (take count history.now.entries)
        → IsTrue result ↔ MayStandIn (instance_at (after config.now (take count history.now.entries)) instance) mark.now }
{
    let _blocks = config.blocks();
    is_configured(config, instance) && stands(config, history, count, instance, mark)
}

// The same of a configured instance.
fn stands(config: &Config, history: &History, count: u32, instance: Instance, mark: &Mark) -> bool
    requires count { count ≤ length history.now.entries }
    requires configured { IsConfigured config.now instance }
    ensures { (cap : ℕ) → IsLegal config.now cap (take count history.now.entries)
        → IsTrue result ↔ MayStandIn (instance_at (after config.now (take count history.now.entries)) instance) mark.now }
{
    let _blocks = config.blocks();
    let mut seen = Seen::at_first();
    for i in 0..count {
        if let Some(entry) = history.entry(i) {
            seen.see(config, instance, mark, entry);
        }
    }
    seen.stands
}
