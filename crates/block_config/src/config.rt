// The configuration.
ghost use Rattle.std.specs.Prelude.{◌≡◌, ◌≤◌, ◌<◌, ◌⊎◌, ◌↔◌, length, IsNone, IfOk, IfSome, option_copied};
ghost use Rattle.block_config.specs.Banks.{bank_pages_of};
ghost use Rattle.block_config.specs.Block.{manager_block};
ghost use Rattle.block_config.specs.Config.{block_of};
ghost use Rattle.block_config.specs.Sizes.{measures_of};
ghost use Rattle.block_config.specs.Rules.{IsLegalBlock, IsLegalConfig, need_pages_of};
ghost use Rattle.block_config.specs.Reading.{configuration};
ghost use Rattle.block_config.specs.Lengths.{lengths_of, device_lengths, lengths_by};

use crate::BlockDesc;
use crate::head::Head;
use crate::lengths::add_stored;
use crate::sizes::{Measures, measures_of};
use nv_base::{Geometry, Lengths};
use std::alloc::{AllocError, Global};
use std::marker::Model;

/// The configuration of the NVRAM Manager. Contracts see its numbers and its blocks, block 1 first. It keeps every
/// rule.
#[derive(Drop)]
pub struct Config {
    id: u16,
    geometry: Geometry,
    banks: u32,
    eeprom: Option<Geometry>,
    standard: u16,
    immediate: u16,
    blocks: Vec<BlockDesc>,
    measures: Measures,
}

impl Model for Config {
    ghost use Rattle.block_config.specs.Config.{Configuration};

    ghost Value = { Configuration };

    ghost use Rattle.block_config.specs.Inside.{shown, IsKept};

    ghost view = { shown };

    ghost invariant = { IsKept };
}

impl Config {
    /// The configuration of a head, so many banks, a second device and these blocks, block 1 among them.
    pub(crate) fn make(
        head: Head,
        banks: u32,
        second: Option<Geometry>,
        blocks: Vec<BlockDesc>,
    ) -> Config
        requires { IsLegalConfig (configuration head banks second blocks.items) }
        ensures { result ≡ configuration head banks second blocks.items }
    {
        let measures = measures_of(&blocks, head.geometry.page);
        Config {
            id: head.id,
            geometry: head.geometry,
            banks,
            eeprom: second,
            standard: head.standard,
            immediate: head.immediate,
            blocks,
            measures,
        }
    }

    /// The same configuration once more, in memory of its own.
    pub fn copied(&self, alloc: Global) -> Result<Config, AllocError>
        ensures { IfOk result (λ c. c ≡ self.now) }
    {
        let mut blocks = Vec::with_capacity(alloc, self.blocks.len())?;
        for block in &self.blocks {
            blocks.push(block.copied(alloc)?)?;
        }
        Ok(Config {
            id: self.id,
            geometry: self.geometry,
            banks: self.banks,
            eeprom: self.eeprom,
            standard: self.standard,
            immediate: self.immediate,
            blocks,
            measures: self.measures,
        })
    }

    /// The shape of the flash.
    pub fn geometry(&self) -> Geometry
        ensures value { result ≡ self.now.geometry }
        ensures legal { IsLegalConfig self.now }
    {
        self.geometry
    }

    /// How many banks share its sectors.
    pub fn banks(&self) -> u32
        ensures value { result ≡ self.now.banks }
        ensures legal { IsLegalConfig self.now }
    {
        self.banks
    }

    /// The shape of the second device's flash. None exactly where the configuration names none; then all blocks are the
    /// first device's.
    pub fn second(&self) -> Option<Geometry>
        ensures value { result ≡ self.now.eeprom }
        ensures legal { IsLegalConfig self.now }
    {
        self.eeprom
    }

    /// The configuration id, which block 1 holds.
    pub fn config_id(&self) -> u16
        ensures { result ≡ self.now.id }
    {
        self.id
    }

    /// How many jobs the standard and the immediate queue have room for.
    pub fn queue_sizes(&self) -> (u16, u16)
        ensures value { result ≡ (self.now.standard, self.now.immediate) }
        ensures legal { IsLegalConfig self.now }
    {
        (self.standard, self.immediate)
    }

    /// How many blocks there are, block 1 included.
    pub fn blocks(&self) -> u16
        ensures count { result ≡ length self.now.blocks }
        ensures legal { IsLegalConfig self.now }
    {
        let _id = self.id;
        self.blocks.len() as u16
    }

    /// The block with an id. None exactly for 0 and for ids above `blocks()`.
    pub fn block(&self, id: u16) -> Option<&BlockDesc>
        ensures value { option_copied result ≡ block_of self.now id }
        ensures none { IsNone result ↔ ((id ≡ 0) ⊎ (length self.now.blocks < id)) }
        ensures manager { IfSome result (λ b. id ≡ 1 → b.now ≡ manager_block self.now.id) }
        ensures others { IfSome result (λ b. 2 ≤ id → IsLegalBlock b.now) }
        ensures legal { IsLegalConfig self.now }
    {
        let _id = self.id;
        if id == 0 {
            return None;
        }
        self.blocks.get(usize::from(id - 1))
    }

    /// How many instances are stored, block 1's two included.
    pub fn instances(&self) -> u16
        ensures value { result ≡ (measures_of self.now.geometry.page self.now.blocks).instances }
        ensures count { result ≡ length (lengths_of self.now) }
    {
        self.measures.instances
    }

    /// Pages that a bank needs.
    pub fn need_pages(&self) -> u32
        ensures value { result ≡ need_pages_of self.now }
        ensures room { result ≤ bank_pages_of self.now }
    {
        self.measures.need() as u32
    }

    /// Pages that are kept free for immediate writes: the most of one, 0 where no block has priority 0.
    pub fn reserve_pages(&self) -> u32
        ensures { result ≡ (measures_of self.now.geometry.page self.now.blocks).urgent }
    {
        self.measures.urgent
    }

    /// Pages of one bank.
    pub fn bank_pages(&self) -> u32
        ensures { result ≡ bank_pages_of self.now }
    {
        self.geometry.bank_pages(self.banks)
    }

    /// The device numbers of all instances with their lengths in bytes, ascending.
    pub fn all_lengths(&self, alloc: Global) -> Result<Lengths, AllocError>
        ensures { IfOk result (λ l. l ≡ lengths_of self.now) }
    {
        self.lengths_by(alloc, None)
    }

    /// The device numbers of those that the first device stores, likewise.
    pub fn lengths(&self, alloc: Global) -> Result<Lengths, AllocError>
        ensures { IfOk result (λ l. l ≡ device_lengths 0 self.now) }
    {
        self.lengths_by(alloc, Some(0))
    }

    /// The device numbers of those that the second device stores, likewise: none without one.
    pub fn lengths_second(&self, alloc: Global) -> Result<Lengths, AllocError>
        ensures { IfOk result (λ l. l ≡ device_lengths 1 self.now) }
    {
        self.lengths_by(alloc, Some(1))
    }

    /// The device numbers of the instances that this device stores, or of all.
    fn lengths_by(&self, alloc: Global, device: Option<u8>) -> Result<Lengths, AllocError>
        ensures { IfOk result (λ l. l ≡ lengths_by device 1 self.now.blocks) }
    {
        let mut lengths = Lengths::new(alloc);
        let mut id = 0;
        for block in &self.blocks {
            id += 1;
            add_stored(&mut lengths, id, block, device)?;
        }
        Ok(lengths)
    }
}
