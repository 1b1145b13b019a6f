// What an accepted request does.
ghost use Rattle.std.specs.Prelude.{ℕ, ◌≡◌};
ghost use Rattle.block_machine.specs.Words.{Configuration};
ghost use Rattle.block_machine.specs.State.{State};
ghost use Rattle.block_machine.specs.Steps.{accepted};
ghost use Rattle.nv_recorder.specs.Request.{request_lent};
ghost use Rattle.nv_desk.specs.Incoming.{IsEffect};
ghost use Rattle.nv_desk_state.specs.Kept.{Agrees, IsChange};

use block_machine::nv_base::Request;
use nv_desk_state::Kept;
use nv_recorder::{LentRequest, RequestKind};

/// What an accepted request does: it makes a job on its block, or one on all blocks, or it changes something at once.
#[derive(Clone, Copy)]
pub enum Effect {
    Job,
    Sweep { writes: bool },
    Change,
}

/// What a request does where it is accepted.
pub fn effect_of(request: LentRequest<'_>) -> Effect
    ensures { IsEffect (request_lent request.entry) result }
{
    match request.kind {
        RequestKind::ReadAll => Effect::Sweep { writes: false },
        RequestKind::WriteAll => Effect::Sweep { writes: true },
        RequestKind::Read { .. }
        | RequestKind::Write { .. }
        | RequestKind::WriteRam { .. }
        | RequestKind::Restore { .. }
        | RequestKind::Erase { .. }
        | RequestKind::Invalidate { .. } => Effect::Job,
        RequestKind::SetIndex { .. }
        | RequestKind::GetIndex { .. }
        | RequestKind::SetProtection { .. }
        | RequestKind::SetLock { .. }
        | RequestKind::SetRam { .. }
        | RequestKind::PutRam { .. }
        | RequestKind::Status { .. }
        | RequestKind::CancelWriteAll => Effect::Change,
    }
}

/// What an accepted request changes at once.
pub fn change(kept: &mut Kept, request: LentRequest<'_>)
    requires { IsChange kept.old.blocks.rooms (request_lent request) }
    ensures { (c : Configuration) (s : State) → Agrees c kept.old s → Agrees c kept.new (accepted c s (request_lent request.entry)) }
{
    match request.kind {
        RequestKind::SetIndex { block, index } => kept.change(&Request::SetIndex { block, index }),
        RequestKind::SetProtection { block, on } => {
            kept.change(&Request::SetProtection { block, on });
        }
        RequestKind::SetLock { block, on } => kept.change(&Request::SetLock { block, on }),
        RequestKind::SetRam { block, on } => kept.change(&Request::SetRam { block, on }),
        RequestKind::PutRam { block } => kept.blocks.put_ram(block, request.content),
        RequestKind::CancelWriteAll => kept.change(&Request::CancelWriteAll),
        _ => {}
    }
}
