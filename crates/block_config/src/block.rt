// Descriptions of blocks.
ghost use Rattle.std.specs.Prelude.{◌≡◌, IfOk};
ghost use Rattle.block_config.specs.Block.{instance_count, record_count, manager_block, plain_block};

use crate::RomList;
use nv_base::{Bytes, bytes_of};
use std::alloc::{AllocError, Global};

/// How a block is stored (NvMBlockManagementType): one instance, two copies, or several datasets that an index
/// chooses from.
#[derive(Clone, Copy, PartialEq, Eq)]
pub enum BlockKind {
    Native,
    Redundant,
    Dataset,
}

/// The RAM of a block: none, a permanent RAM block, or one of the application's that is synchronized by copies
/// (NvMBlockUseSyncMechanism).
#[derive(Clone, Copy, PartialEq, Eq)]
pub enum RamKind {
    None,
    Permanent,
    Sync,
}

/// The description of a block (NvMBlockDescriptor).
#[derive(Drop)]
pub struct BlockDesc {
    pub kind: BlockKind,
    pub ram: RamKind,
    /// Bytes of a content.
    pub length: u16,
    /// 0 is immediate, 255 the lowest.
    pub priority: u8,
    /// Stored datasets of a dataset, 0 for the other kinds.
    pub nv: u8,
    /// A member of ReadAll.
    pub readall: bool,
    /// A member of WriteAll.
    pub writeall: bool,
    /// Protected from its first write on.
    pub once: bool,
    /// Protected after each start-up.
    pub protected: bool,
    /// Read by ReadAll even where the configuration id differs.
    pub resistant: bool,
    /// Further tries of a read, of a write, and of a copy to or from the application.
    pub reads: u8,
    pub writes: u8,
    pub repeats: u8,
    /// The device that stores it: 0, or 1 for the second one.
    pub device: u8,
    /// What a restore gives, where there is something.
    pub defaults: Option<Bytes>,
    /// ROM datasets, whose indices follow those of the stored ones.
    pub rom: RomList,
}

impl BlockKind {
    /// Stored instances of a block of this kind with so many stored datasets.
    pub fn instances(self, nv: u8) -> u8
        ensures { result ≡ instance_count self nv }
    {
        match self {
            BlockKind::Native => 1,
            BlockKind::Redundant => 2,
            BlockKind::Dataset => nv,
        }
    }

    /// Records of one write.
    pub fn records(self) -> u8
        ensures { result ≡ record_count self }
    {
        if self == BlockKind::Redundant { 2 } else { 1 }
    }
}

impl BlockDesc {
    /// The same description once more.
    pub(crate) fn copied(&self, alloc: Global) -> Result<BlockDesc, AllocError>
        ensures { IfOk result (λ b. b ≡ self.now) }
    {
        let defaults = copy_of(alloc, &self.defaults)?;
        let rom = self.rom.copied(alloc)?;
        Ok(BlockDesc {
            kind: self.kind,
            length: self.length,
            priority: self.priority,
            ram: self.ram,
            defaults,
            nv: self.nv,
            rom,
            readall: self.readall,
            writeall: self.writeall,
            once: self.once,
            protected: self.protected,
            resistant: self.resistant,
            reads: self.reads,
            writes: self.writes,
            repeats: self.repeats,
            device: self.device,
        })
    }
}

fn copy_of(alloc: Global, content: &Option<Bytes>) -> Result<Option<Bytes>, AllocError>
    ensures { IfOk result (λ copy. copy ≡ content.now) }
{
    match content {
        Some(bytes) => Ok(Some(bytes_of(alloc, bytes.as_slice())?)),
        None => Ok(None),
    }
}

/// A native block of this length for which nothing else was configured.
pub(crate) fn plain_block(alloc: Global, length: u16) -> BlockDesc
    ensures { result ≡ plain_block length }
{
    BlockDesc {
        kind: BlockKind::Native,
        length,
        priority: 100,
        ram: RamKind::None,
        defaults: None,
        nv: 0,
        rom: RomList::new(alloc),
        readall: false,
        writeall: false,
        once: false,
        protected: false,
        resistant: false,
        reads: 0,
        writes: 0,
        repeats: 0,
        device: 0,
    }
}

/// Block 1, which the manager keeps for itself: it holds the configuration id.
pub(crate) fn manager_block(alloc: Global, id: u16) -> Result<BlockDesc, AllocError>
    ensures { IfOk result (λ b. b ≡ manager_block id) }
{
    let defaults = bytes_of(alloc, &[(id / 256) as u8, (id % 256) as u8])?;
    Ok(BlockDesc {
        kind: BlockKind::Redundant,
        priority: 255,
        defaults: Some(defaults),
        readall: true,
        writeall: true,
        reads: 1,
        writes: 1,
        ..plain_block(alloc, 2)
    })
}
