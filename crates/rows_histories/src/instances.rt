// The instances of a configuration.
ghost use Rattle.std.specs.Prelude.{◌≡◌, ◌↔◌, IsTrue};
ghost use Rattle.block_machine.specs.Blocks.{desc_of, indices_by, is_in};
ghost use Rattle.rows_histories.specs.Instances.{IsConfigured};

use block_machine::block_config::{BlockKind, Config};
use block_machine::nv_base::Instance;

/// Whether an instance is configured.
pub fn is_configured(config: &Config, instance: Instance) -> bool
    ensures { IsTrue result ↔ IsConfigured config.now instance }
{
    match config.block(instance.block) {
        Some(desc) => instance.index < desc.kind.instances(desc.nv),
        None => false,
    }
}

/// Whether a job on its block works on an instance, while the block has this data index.
pub fn works_on(config: &Config, instance: Instance, index: u8) -> bool
    ensures { result ≡ is_in (indices_by (desc_of config.now instance.block).kind (desc_of config.now instance.block).nv index) instance.index }
{
    match config.block(instance.block) {
        Some(desc) => match desc.kind {
            BlockKind::Native => instance.index == 0,
            BlockKind::Redundant => instance.index <= 1,
            BlockKind::Dataset => index < desc.nv && instance.index == index,
        },
        None => instance.index == 0,
    }
}
