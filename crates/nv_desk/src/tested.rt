// The refusals that a request is tested for.
ghost use Rattle.std.specs.Prelude.{◌≡◌};
ghost use Rattle.block_machine.specs.Reply.{tested};
ghost use Rattle.nv_recorder.specs.Request.{request_lent};

use block_machine::nv_base::Refusal;
use nv_recorder::{LentRequest, RequestKind};

static READ: [Refusal; 6] = [
    Refusal::UnknownBlock,
    Refusal::NotStarted,
    Refusal::MultiPending,
    Refusal::Pending,
    Refusal::QueueFull,
    Refusal::HistoryFull,
];

static READ_RAM: [Refusal; 7] = [
    Refusal::UnknownBlock,
    Refusal::NotStarted,
    Refusal::NoRam,
    Refusal::MultiPending,
    Refusal::Pending,
    Refusal::QueueFull,
    Refusal::HistoryFull,
];

static WRITE: [Refusal; 11] = [
    Refusal::UnknownBlock,
    Refusal::NotStarted,
    Refusal::WrongType,
    Refusal::BadLength,
    Refusal::MultiPending,
    Refusal::Pending,
    Refusal::Locked,
    Refusal::Protected,
    Refusal::RomIndex,
    Refusal::QueueFull,
    Refusal::HistoryFull,
];

static WRITE_RAM: [Refusal; 11] = [
    Refusal::UnknownBlock,
    Refusal::NotStarted,
    Refusal::WrongType,
    Refusal::NoRam,
    Refusal::MultiPending,
    Refusal::Pending,
    Refusal::Locked,
    Refusal::Protected,
    Refusal::RomIndex,
    Refusal::QueueFull,
    Refusal::HistoryFull,
];

static RESTORE: [Refusal; 8] = [
    Refusal::UnknownBlock,
    Refusal::NotStarted,
    Refusal::WrongType,
    Refusal::NoDefaults,
    Refusal::MultiPending,
    Refusal::Pending,
    Refusal::QueueFull,
    Refusal::HistoryFull,
];

static RESTORE_RAM: [Refusal; 9] = [
    Refusal::UnknownBlock,
    Refusal::NotStarted,
    Refusal::WrongType,
    Refusal::NoRam,
    Refusal::NoDefaults,
    Refusal::MultiPending,
    Refusal::Pending,
    Refusal::QueueFull,
    Refusal::HistoryFull,
];

static ERASE: [Refusal; 11] = [
    Refusal::UnknownBlock,
    Refusal::NotStarted,
    Refusal::WrongType,
    Refusal::NotImmediate,
    Refusal::MultiPending,
    Refusal::Pending,
    Refusal::Locked,
    Refusal::Protected,
    Refusal::RomIndex,
    Refusal::QueueFull,
    Refusal::HistoryFull,
];

static INVALIDATE: [Refusal; 10] = [
    Refusal::UnknownBlock,
    Refusal::NotStarted,
    Refusal::WrongType,
    Refusal::MultiPending,
    Refusal::Pending,
    Refusal::Locked,
    Refusal::Protected,
    Refusal::RomIndex,
    Refusal::QueueFull,
    Refusal::HistoryFull,
];

static SET_INDEX: [Refusal; 6] = [
    Refusal::UnknownBlock,
    Refusal::NotStarted,
    Refusal::WrongType,
    Refusal::BadIndex,
    Refusal::MultiPending,
    Refusal::Pending,
];

static GET_INDEX: [Refusal; 3] = [
    Refusal::UnknownBlock,
    Refusal::NotStarted,
    Refusal::WrongType,
];

static SET_PROTECTION: [Refusal; 6] = [
    Refusal::UnknownBlock,
    Refusal::NotStarted,
    Refusal::WrongType,
    Refusal::WriteOnce,
    Refusal::MultiPending,
    Refusal::Pending,
];

static SET_LOCK: [Refusal; 5] = [
    Refusal::UnknownBlock,
    Refusal::NotStarted,
    Refusal::WrongType,
    Refusal::MultiPending,
    Refusal::Pending,
];

static SET_RAM: [Refusal; 6] = [
    Refusal::UnknownBlock,
    Refusal::NotStarted,
    Refusal::WrongType,
    Refusal::NoRam,
    Refusal::MultiPending,
    Refusal::Pending,
];

static PUT_RAM: [Refusal; 7] = [
    Refusal::UnknownBlock,
    Refusal::NotStarted,
    Refusal::WrongType,
    Refusal::BadLength,
    Refusal::NoRam,
    Refusal::MultiPending,
    Refusal::Pending,
];

static STATUS: [Refusal; 2] = [Refusal::UnknownBlock, Refusal::NotStarted];

static ALL_BLOCKS: [Refusal; 3] = [
    Refusal::NotStarted,
    Refusal::MultiPending,
    Refusal::HistoryFull,
];

static CANCEL: [Refusal; 2] = [Refusal::NotStarted, Refusal::NothingToCancel];

/// The refusals that a request is tested for, ascending.
pub fn tested(request: LentRequest<'_>) -> &'static [Refusal]
    ensures { result.now ≡ tested (request_lent request.entry) }
{
    match request.kind {
        RequestKind::Read { ram: false, .. } => &READ,
        RequestKind::Read { ram: true, .. } => &READ_RAM,
        RequestKind::Write { .. } => &WRITE,
        RequestKind::WriteRam { .. } => &WRITE_RAM,
        RequestKind::Restore { ram: false, .. } => &RESTORE,
        RequestKind::Restore { ram: true, .. } => &RESTORE_RAM,
        RequestKind::Erase { .. } => &ERASE,
        RequestKind::Invalidate { .. } => &INVALIDATE,
        RequestKind::SetIndex { .. } => &SET_INDEX,
        RequestKind::GetIndex { .. } => &GET_INDEX,
        RequestKind::SetProtection { .. } => &SET_PROTECTION,
        RequestKind::SetLock { .. } => &SET_LOCK,
        RequestKind::SetRam { .. } => &SET_RAM,
        RequestKind::PutRam { .. } => &PUT_RAM,
        RequestKind::Status { .. } => &STATUS,
        RequestKind::ReadAll | RequestKind::WriteAll => &ALL_BLOCKS,
        RequestKind::CancelWriteAll => &CANCEL,
    }
}
