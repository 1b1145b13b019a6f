// What a request asks the NVRAM Manager for.
ghost use Rattle.std.specs.Prelude.{◌≡◌, ◌<◌, ◌≤◌, length, IfOk, IfErr, OnOk, Ok};
ghost use Rattle.nvm_moves.specs.block_machine.Blocks.{desc_of};
ghost use Rattle.uds_gateway.specs.Services.{asked_by, block_by, read_by, write_by};
ghost use Rattle.uds_gateway.specs.Answers.{IsWhy};
ghost use Rattle.uds_gateway.specs.Jobs.{IsOwn};

use crate::NegativeCode;
use nvm_moves::{Config, Request, bytes_of};
use std::alloc::{AllocError, Global};

/// ReadDataByIdentifier.
pub const READ_SERVICE: u8 = 0x22;

/// WriteDataByIdentifier.
const WRITE_SERVICE: u8 = 0x2e;

/// Why a request asks for nothing: it is refused, or no memory was found for its content.
#[derive(Clone, Copy)]
pub enum AskedFault {
    Refused(NegativeCode),
    Memory,
}

impl From<AllocError> for AskedFault {
    ghost use Rattle.uds_gateway.specs.declared.asked.AskedFault.TheVariants.{Memory};

    ghost from_gives = { λ _ fault. fault ≡ Memory };

    fn from(_error: AllocError) -> AskedFault {
        AskedFault::Memory
    }
}

/// The request of the NVRAM Manager that a request asks for: a read to the caller's buffer, or a write of its content.
pub fn asked_by(alloc: Global, config: &Config, request: &[u8]) -> Result<Request, AskedFault>
    requires some { 0 < length request.now }
    ensures ok { IfOk result (λ asked. asked_by config.now request.now ≡ Ok asked) }
    ensures own { IfOk result IsOwn }
    ensures long { OnOk result (3 ≤ length request.now) }
    ensures err { IfErr result (IsWhy (asked_by config.now request.now)) }
{
    match request[0] {
        READ_SERVICE => read_by(config, request),
        WRITE_SERVICE => write_by(alloc, config, request),
        _ => Err(AskedFault::Refused(NegativeCode::ServiceNotSupported)),
    }
}

fn read_by(config: &Config, request: &[u8]) -> Result<Request, AskedFault>
    ensures ok { IfOk result (λ asked. read_by config.now request.now ≡ Ok asked) }
    ensures own { IfOk result IsOwn }
    ensures long { OnOk result (3 ≤ length request.now) }
    ensures err { IfErr result (IsWhy (read_by config.now request.now)) }
{
    if request.len() != 3 {
        return Err(AskedFault::Refused(NegativeCode::IncorrectLength));
    }
    match block_by(config, request[1], request[2]) {
        Some(block) => Ok(Request::Read { block, ram: false }),
        None => Err(AskedFault::Refused(NegativeCode::OutOfRange)),
    }
}

fn write_by(alloc: Global, config: &Config, request: &[u8]) -> Result<Request, AskedFault>
    ensures ok { IfOk result (λ asked. write_by config.now request.now ≡ Ok asked) }
    ensures own { IfOk result IsOwn }
    ensures long { OnOk result (3 ≤ length request.now) }
    ensures err { IfErr result (IsWhy (write_by config.now request.now)) }
{
    if request.len() < 4 {
        return Err(AskedFault::Refused(NegativeCode::IncorrectLength));
    }
    let Some(block) = block_by(config, request[1], request[2]) else {
        return Err(AskedFault::Refused(NegativeCode::OutOfRange));
    };
    let content = &request[3..];
    if content.len() != length_of(config, block) {
        return Err(AskedFault::Refused(NegativeCode::IncorrectLength));
    }
    Ok(Request::Write {
        block,
        content: Some(bytes_of(alloc, content)?),
        store: 0,
    })
}

// The block that an identifier names.
fn block_by(config: &Config, high: u8, low: u8) -> Option<u16>
    ensures { result ≡ block_by config.now high low }
{
    let id = u16::from(high) * 256 + u16::from(low);
    if id >= 0x0102 && id - 0x0100 <= config.blocks() {
        Some(id - 0x0100)
    } else {
        None
    }
}

/// How many bytes a block has, 0 where none is configured.
pub fn length_of(config: &Config, block: u16) -> usize
    ensures length { result ≡ (desc_of config.now block).length }
    ensures small { result ≤ 65535 }
{
    match config.block(block) {
        Some(desc) => usize::from(desc.length),
        None => 0,
    }
}
