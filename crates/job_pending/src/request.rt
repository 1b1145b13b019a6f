// What a request asks for.
ghost use Rattle.std.specs.Prelude.{◌≡◌};
ghost use Rattle.block_machine.specs.Blocks.{asked_block, job_kind, names_ram};

use block_machine::nv_base::{JobKind, Request};

/// The block that a request names, or 0 where it names all.
pub fn asked_block(request: &Request) -> u16
    ensures { result ≡ asked_block request.now }
{
    match request {
        Request::Read { block, ram: _ }
        | Request::Write {
            block,
            content: _,
            store: _,
        }
        | Request::Restore { block, ram: _ }
        | Request::Erase { block }
        | Request::Invalidate { block }
        | Request::SetIndex { block, index: _ }
        | Request::GetIndex { block }
        | Request::SetProtection { block, on: _ }
        | Request::SetLock { block, on: _ }
        | Request::SetRam { block, on: _ }
        | Request::PutRam { block, content: _ }
        | Request::Status { block } => *block,
        Request::ReadAll | Request::WriteAll | Request::CancelWriteAll => 0,
    }
}

/// The kind of the job on one block that a request makes, if it makes one.
pub fn job_kind(request: &Request) -> Option<JobKind>
    ensures { result ≡ job_kind request.now }
{
    match request {
        Request::Read { .. } => Some(JobKind::Read),
        Request::Write { .. } => Some(JobKind::Write),
        Request::Restore { .. } => Some(JobKind::Restore),
        Request::Erase { .. } => Some(JobKind::Erase),
        Request::Invalidate { .. } => Some(JobKind::Invalidate),
        _ => None,
    }
}

/// Whether a request names its block's RAM, and not a buffer of the caller.
pub fn names_ram(request: &Request) -> bool
    ensures { result ≡ names_ram request.now }
{
    match request {
        Request::Read { ram, .. } | Request::Restore { ram, .. } => *ram,
        Request::Write { content, .. } => content.is_none(),
        _ => false,
    }
}
