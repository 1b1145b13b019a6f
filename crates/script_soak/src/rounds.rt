// The step of a round.
ghost use Rattle.std.specs.Prelude.{◌≡◌, ◌<◌, ◌≤◌, ◌+◌, ◌-◌, ◌%◌, IfOk, length};
ghost use Rattle.std.specs.Option.{option_map_or};
ghost use Rattle.block_config.specs.Config.{block_of};
ghost use Rattle.script_soak.specs.Rounds.{write_of, step_by};

use block_config::Config;
use nv_base::{Bytes, Request};
use nvm_script::StepKind;
use std::alloc::{AllocError, Global};

// The bytes of a block's contents.
fn length_of(config: &Config, block: u16) -> u16
    ensures { result ≡ option_map_or (λ b. b.length) (block_of config.now block) 0 }
{
    match config.block(block) {
        Some(desc) => desc.length,
        None => 0,
    }
}

// A write of so many equal bytes.
fn write_step(alloc: Global, config: &Config, block: u16, value: u8) -> Result<StepKind, AllocError>
    ensures { IfOk result (λ k. k ≡ write_of config.now block value) }
{
    let length = length_of(config, block);
    let content = vec![in alloc; value; usize::from(length)]?;
    Ok(StepKind::Ask(Request::Write {
        block,
        content: Some(Bytes::from_vec(content)),
        store: 0,
    }))
}

// The step of a kind from 0 to 7.
fn step_by(
    alloc: Global,
    config: &Config,
    kind: u32,
    block: u16,
    value: u8,
) -> Result<StepKind, AllocError>
    ensures { IfOk result (λ k. k ≡ step_by config.now kind block value) }
{
    match kind {
        0..=3 => write_step(alloc, config, block, value),
        4 => Ok(StepKind::Ask(Request::Read { block, ram: false })),
        5 => Ok(StepKind::Turn {
            count: 1 + u32::from(value),
        }),
        6 => Ok(StepKind::Drain),
        _ if value < 16 => Ok(StepKind::Restart),
        _ => Ok(StepKind::Turn { count: 1 }),
    }
}

/// The step of a round, from its three draws.
pub fn step_drawn(
    alloc: Global,
    config: &Config,
    first: u32,
    second: u32,
    third: u32,
) -> Result<StepKind, AllocError>
    ensures { IfOk result (λ k. k ≡ step_by config.now (first % 8) (2 + second % (length config.now.blocks - 1)) (third % 256)) }
{
    let others = u32::from(config.blocks()) - 1;
    let block = (2 + second % others) as u16;
    step_by(alloc, config, first % 8, block, (third % 256) as u8)
}
