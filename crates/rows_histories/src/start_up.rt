// Whether a start-up may find what it lists.
ghost use Rattle.std.specs.Prelude.{◌↔◌, ◌≤◌, ℕ, IsTrue, length, take};
ghost use Rattle.block_machine.specs.Blocks.{instance_at};
ghost use Rattle.block_machine.specs.StartUp.{listed_mark};
ghost use Rattle.block_machine.specs.Steps.{after};
ghost use Rattle.block_machine.specs.Legal.{IsLegal, MayBeFound};
ghost use Rattle.block_machine.specs.History.{MayStandIn};
ghost use Rattle.rows_histories.specs.Instances.{IsConfigured, EachIndexOf, EachConfigured};

use crate::allowed::allows_behind;
use crate::found::find_mark;
use block_machine::block_config::Config;
use block_machine::nv_base::{History, Instance, Mark, Marks};

/// Whether a later start-up may find these marks behind the first `count` entries of a legal history: of each configured
/// instance the one that is listed, or Erased where none is.
pub fn may_find(config: &Config, history: &History, count: u32, marks: &Marks) -> bool
    requires { count ≤ length history.now.entries }
    ensures { (cap : ℕ) → IsLegal config.now cap (take count history.now.entries) → IsTrue (after config.now (take count history.now.entries)).started
        → IsTrue result ↔ MayBeFound marks.now (after config.now (take count history.now.entries)).instances }
{
    let _blocks = config.blocks();
    each_may_stand(config, history, count, marks)
}

// Whether the mark that is listed for each configured instance may stand.
fn each_may_stand(config: &Config, history: &History, count: u32, marks: &Marks) -> bool
    requires { count ≤ length history.now.entries }
    ensures { (cap : ℕ) → IsLegal config.now cap (take count history.now.entries)
        → IsTrue result ↔ EachConfigured config.now (λ i. MayStandIn (instance_at (after config.now (take count history.now.entries)) i) (listed_mark marks.now i)) }
{
    for place in 0..config.blocks() {
        if !block_may_stand(config, history, count, marks, place + 1) {
            return false;
        }
    }
    true
}

// The same for each instance of one block.
fn block_may_stand(config: &Config, history: &History, count: u32, marks: &Marks, id: u16) -> bool
    requires { count ≤ length history.now.entries }
    ensures { (cap : ℕ) → IsLegal config.now cap (take count history.now.entries)
        → IsTrue result ↔ EachIndexOf config.now id (λ i. MayStandIn (instance_at (after config.now (take count history.now.entries)) i) (listed_mark marks.now i)) }
{
    let Some(desc) = config.block(id) else {
        return true;
    };
    for index in 0..desc.kind.instances(desc.nv) {
        if !listed_may_stand(config, history, count, marks, Instance { block: id, index }) {
            return false;
        }
    }
    true
}

// The same for one instance.
fn listed_may_stand(
    config: &Config,
    history: &History,
    count: u32,
    marks: &Marks,
    instance: Instance,
) -> bool
    requires { count ≤ length history.now.entries }
    ensures { (cap : ℕ) → IsLegal config.now cap (take count history.now.entries)
        → IsTrue result ↔ MayStandIn (instance_at (after config.now (take count history.now.entries)) instance) (listed_mark marks.now instance) }
{
    match find_mark(marks, instance) {
        Some(mark) => allows_behind(config, history, count, instance, mark),
        None => allows_behind(config, history, count, instance, &Mark::Erased),
    }
}
