// The configuration that comes with the product.
ghost use Rattle.std.specs.Prelude.{◌≡◌, IfOk};
ghost use Rattle.block_config.specs.DemoConfig.{demo_config, demo_block_2, demo_block_3};

use crate::block::{manager_block, plain_block};
use crate::head::Head;
use crate::{BlockDesc, Config, RamKind};
use nv_base::{Geometry, bytes_of};
use std::alloc::{AllocError, Global};

/// The configuration that `@demo` stands for. Block 2 has 4 bytes in permanent RAM and is a member of both sweeps,
/// block 3 has 20 bytes of defaults and is immediate.
pub fn demo(alloc: Global) -> Result<Config, AllocError>
    ensures { IfOk result (λ c. c ≡ demo_config) }
{
    let mut blocks = Vec::new(alloc);
    blocks.push(manager_block(alloc, 1)?)?;
    blocks.push(demo_block_2(alloc))?;
    blocks.push(demo_block_3(alloc)?)?;
    let geometry = Geometry {
        page: 16,
        sector: 256,
        sectors: 8,
    };
    let head = Head {
        id: 1,
        geometry,
        standard: 8,
        immediate: 4,
    };
    Ok(Config::make(head, 2, None, blocks))
}

fn demo_block_2(alloc: Global) -> BlockDesc
    ensures { result ≡ demo_block_2 }
{
    BlockDesc {
        priority: 10,
        ram: RamKind::Permanent,
        readall: true,
        writeall: true,
        reads: 1,
        writes: 1,
        ..plain_block(alloc, 4)
    }
}

fn demo_block_3(alloc: Global) -> Result<BlockDesc, AllocError>
    ensures { IfOk result (λ b. b ≡ demo_block_3) }
{
    let defaults = bytes_of(alloc, &[0xa5; 20])?;
    Ok(BlockDesc {
        priority: 0,
        defaults: Some(defaults),
        reads: 1,
        writes: 1,
        ..plain_block(alloc, 20)
    })
}
