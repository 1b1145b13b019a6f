// Which steps a script may have.
ghost use Rattle.std.specs.Prelude.{◌≡◌};
ghost use Rattle.nvm_script.specs.Rules.{sync_length_of, settled_put, where_played, where_run, settled as settled_step};

use crate::{Mode, StepKind};
use block_config::{Config, RamKind};
use nv_base::{Bytes, Request};

// The length of a block whose RAM is synchronized.
pub fn sync_length(config: &Config, block: u16) -> Option<u16>
    ensures { result ≡ sync_length_of config.now block }
{
    let block = config.block(block)?;
    match block.ram {
        RamKind::Sync => Some(block.length),
        _ => None,
    }
}

// What a `ram` line asks for: a store of the application where the block is synchronized, else a request.
fn put_or_store(block: u16, content: Bytes, sync: Option<u16>) -> Option<StepKind>
    ensures { result ≡ settled_put block content sync }
{
    match sync {
        None => Some(StepKind::Ask(Request::PutRam { block, content })),
        Some(length) => {
            if content.len() != usize::from(length) {
                return None;
            }
            Some(StepKind::Store { block, content })
        }
    }
}

fn played(mode: Mode, called: bool, kind: Option<StepKind>) -> Option<StepKind>
    ensures { result ≡ where_played mode called kind }
{
    match mode {
        Mode::Play if !called => kind,
        _ => None,
    }
}

fn run(mode: Mode, kind: Option<StepKind>) -> Option<StepKind>
    ensures { result ≡ where_run mode kind }
{
    match mode {
        Mode::Run => kind,
        Mode::Play => None,
    }
}

// The step that was spelled, where the script may have it.
pub fn settled(config: &Config, mode: Mode, called: bool, kind: StepKind) -> Option<StepKind>
    ensures { result ≡ settled_step config.now mode called kind }
{
    match kind {
        StepKind::Ask(Request::PutRam { block, content }) => {
            put_or_store(block, content, sync_length(config, block))
        }
        StepKind::Ask(request) => Some(StepKind::Ask(request)),
        StepKind::Store {
            block: _,
            content: _,
        } => None,
        StepKind::CutSecond { nth, keep } => {
            let second = config.second();
            played(
                mode,
                called,
                second.map(|_| StepKind::CutSecond { nth, keep }),
            )
        }
        StepKind::Refuse { block, count } => {
            let sync = sync_length(config, block);
            played(
                mode,
                called,
                sync.map(|_| StepKind::Refuse { block, count }),
            )
        }
        StepKind::Await { block } => {
            let known = block <= config.blocks();
            run(mode, known.then_some(StepKind::Await { block }))
        }
        kind => played(mode, called, Some(kind)),
    }
}
