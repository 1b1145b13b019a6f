// Which job may interrupt which.
ghost use Rattle.std.specs.Prelude.{◌≡◌, ◌↔◌, IsTrue};
ghost use Rattle.block_machine.specs.Blocks.{desc_of, records_by, records_of};
ghost use Rattle.block_machine.specs.Legal.{is_unfinished, MayInterrupt};

use crate::Job;
use crate::waiting::is_immediate;
use block_machine::block_config::{BlockKind, Config};
use block_machine::nv_base::JobKind;

/// Whether a job in hand may be interrupted by another one: that is immediate, and it is standard and has a record left to
/// write, or writes none at all.
pub fn may_interrupt(config: &Config, held: &Job, next: &Job) -> bool
    ensures { IsTrue result ↔ MayInterrupt config.now held.now next.now }
{
    is_immediate(config, next) && !is_immediate(config, held) && is_unfinished(config, held)
}

fn is_unfinished(config: &Config, job: &Job) -> bool
    ensures { result ≡ is_unfinished config.now job.now }
{
    let records = records_of(config, job);
    job.written() < records || records == 0
}

// The records that a job writes.
fn records_of(config: &Config, job: &Job) -> u8
    ensures { result ≡ records_of config.now job.now }
{
    match job.kind() {
        JobKind::Read | JobKind::Restore => 0,
        _ => kind_of(config, job.block()).records(),
    }
}

// How a block is stored, as a native one where it isn't configured.
fn kind_of(config: &Config, block: u16) -> BlockKind
    ensures { result ≡ (desc_of config.now block).kind }
{
    match config.block(block) {
        Some(desc) => desc.kind,
        None => BlockKind::Native,
    }
}
