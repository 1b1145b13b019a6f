// The device numbers of blocks.
ghost use Rattle.std.specs.Prelude.{◌≡◌, ◌<◌, ◌≤◌, ◌+◌, ◌*◌, ◌++◌, OnOk};
ghost use Rattle.nv_base.specs.Lengths.{last_or};
ghost use Rattle.block_config.specs.Sizes.{instances_of};
ghost use Rattle.block_config.specs.Lengths.{block_lengths, stored_lengths};

use crate::BlockDesc;
use nv_base::{Instance, Lengths, number_of};
use std::alloc::AllocError;

/// Adds the instances of the block with this id, where this device stores it or none is named.
pub fn add_stored(
    lengths: &mut Lengths,
    id: u16,
    block: &BlockDesc,
    device: Option<u8>,
) -> Result<(), AllocError>
    requires above { last_or 0 lengths.old < id * 64 }
    requires id { id ≤ 512 }
    requires instances { instances_of block.now ≤ 64 }
    requires some { 1 ≤ block.now.length }
    requires most { block.now.length ≤ 4096 }
    ensures added { OnOk result (lengths.new ≡ lengths.old ++ stored_lengths device id block.now) }
    ensures below { OnOk result (last_or 0 lengths.new < (id + 1) * 64) }
{
    match device {
        Some(device) if device != block.device => Ok(()),
        _ => add_block(lengths, id, block),
    }
}

/// Adds the instances of the block with this id.
fn add_block(lengths: &mut Lengths, id: u16, block: &BlockDesc) -> Result<(), AllocError>
    requires above { last_or 0 lengths.old < id * 64 }
    requires id { id ≤ 512 }
    requires instances { instances_of block.now ≤ 64 }
    requires some { 1 ≤ block.now.length }
    requires most { block.now.length ≤ 4096 }
    ensures added { OnOk result (lengths.new ≡ lengths.old ++ block_lengths id block.now) }
    ensures below { OnOk result (last_or 0 lengths.new < (id + 1) * 64) }
{
    for index in 0..block.kind.instances(block.nv) {
        lengths.add(number_of(Instance { block: id, index }), block.length)?;
    }
    Ok(())
}
