// The pages that a configuration needs.
ghost use Rattle.std.specs.Prelude.{◌≡◌, ◌≤◌, ◌+◌, ◌*◌, length, All};
ghost use Rattle.block_config.specs.Block.{instance_count, record_count};
ghost use Rattle.block_config.specs.Sizes.{size_of, second_count, urgent_pages, measures_of, need_of, IsBounded};

use crate::BlockDesc;
use nv_base::record_pages;

/// What is added up over all blocks: the instances, the pages in a bank of all of them, of the greatest, and the most of
/// one immediate write, and the instances that the second device stores.
#[derive(Clone, Copy)]
pub struct Measures {
    pub instances: u16,
    pub all: u32,
    pub greatest: u32,
    pub urgent: u32,
    pub second: u16,
}

impl Measures {
    /// Pages that a bank needs.
    pub fn need(self) -> u64
        ensures { result ≡ need_of self }
    {
        u64::from(self.all) + 2 * u64::from(self.greatest) + 2 * u64::from(self.urgent) + 1
    }
}

/// Pages in a bank of each instance of a block: none where the second device stores it.
fn pages_of(block: &BlockDesc, page: u32) -> u32
    requires page { 16 ≤ page }
    requires small { page ≤ 256 }
    requires bounded { IsBounded block.now }
    ensures value { result ≡ size_of page block.now }
    ensures few { result ≤ 259 }
{
    if block.device == 0 {
        record_pages(block.length, page)
    } else {
        0
    }
}

/// Instances of a block that the second device stores.
fn second_count(block: &BlockDesc) -> u8
    ensures { result ≡ second_count block.now }
{
    if block.device == 0 {
        0
    } else {
        block.kind.instances(block.nv)
    }
}

/// Pages of one immediate write of a block, 0 where it has no such writes.
fn urgent_pages(block: &BlockDesc, page: u32) -> u32
    requires page { 16 ≤ page }
    requires small { page ≤ 256 }
    requires bounded { IsBounded block.now }
    ensures { result ≡ urgent_pages page block.now }
{
    if block.priority == 0 {
        u32::from(block.kind.records()) * pages_of(block, page)
    } else {
        0
    }
}

/// The measures of these blocks on pages of this size.
pub fn measures_of(blocks: &[BlockDesc], page: u32) -> Measures
    requires page { 16 ≤ page }
    requires small { page ≤ 256 }
    requires few { length blocks.now ≤ 512 }
    requires bounded { All IsBounded blocks.now }
    ensures { result ≡ measures_of page blocks.now }
{
    let mut sum = Measures {
        instances: 0,
        all: 0,
        greatest: 0,
        urgent: 0,
        second: 0,
    };
    for block in blocks {
        let size = pages_of(block, page);
        let instances = block.kind.instances(block.nv);
        sum.instances += u16::from(instances);
        sum.all += u32::from(instances) * size;
        sum.greatest = sum.greatest.max(size);
        sum.urgent = sum.urgent.max(urgent_pages(block, page));
        sum.second += u16::from(second_count(block));
    }
    sum
}
