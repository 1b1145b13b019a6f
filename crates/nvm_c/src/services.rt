// The services.
ghost use Rattle.std.specs.Prelude.{◌≡◌, ◌≢◌, ℕ, List, None, IfSome, IsSome};
ghost use Rattle.nvm.specs.nv_desk.Request.{whole_request};
ghost use Rattle.nvm_c.specs.Services.{answer_code, answer_value, brings_content, number_of, request_of};
ghost use Rattle.nvm_c.specs.Exports.{Goes, IsAsked};
ghost use Rattle.nvm_c.specs.Held.{IsHandedOn};

use crate::handle::{Handle, work_on};
use crate::work::{Outcome, Task, UnitWork};
use nvm::{AskFault, Reply, RequestKind, refusal_number, result_code};
use std::alloc::Global;

/// The services that ask something, by the standard's names; of a null pointer by those of its calls on permanent RAM.
#[derive(Clone, Copy)]
pub enum Service {
    SetDataIndex,
    GetDataIndex,
    SetBlockProtection,
    SetRamBlockStatus,
    ReadBlock,
    WriteBlock,
    RestoreBlockDefaults,
    EraseNvBlock,
    CancelWriteAll,
    InvalidateNvBlock,
    ReadAll,
    WriteAll,
    SetBlockLockStatus,
    ReadPermanentRam,
    WritePermanentRam,
    RestorePermanentRam,
    PutRam,
}

// The service of a number.
fn service_of(number: u8) -> Option<Service>
    ensures some { IfSome result (λ s. number_of s ≡ number) }
    ensures none { result ≡ None → (s : Service) → number_of s ≢ number }
{
    match number {
        1 => Some(Service::SetDataIndex),
        2 => Some(Service::GetDataIndex),
        3 => Some(Service::SetBlockProtection),
        5 => Some(Service::SetRamBlockStatus),
        6 => Some(Service::ReadBlock),
        7 => Some(Service::WriteBlock),
        8 => Some(Service::RestoreBlockDefaults),
        9 => Some(Service::EraseNvBlock),
        10 => Some(Service::CancelWriteAll),
        11 => Some(Service::InvalidateNvBlock),
        12 => Some(Service::ReadAll),
        13 => Some(Service::WriteAll),
        19 => Some(Service::SetBlockLockStatus),
        22 => Some(Service::ReadPermanentRam),
        23 => Some(Service::WritePermanentRam),
        24 => Some(Service::RestorePermanentRam),
        128 => Some(Service::PutRam),
        _ => None,
    }
}

// Whether it brings a content.
fn brings_content(service: Service) -> bool
    ensures { result ≡ brings_content service }
{
    matches!(service, Service::WriteBlock | Service::PutRam)
}

// What a service asks, without its content.
fn kind_of(service: Service, block: u16, number: u8) -> RequestKind
    ensures { (content : List ℕ) → whole_request result content ≡ request_of service block number content }
{
    let on = number != 0;
    match service {
        Service::SetDataIndex => RequestKind::SetIndex {
            block,
            index: number,
        },
        Service::GetDataIndex => RequestKind::GetIndex { block },
        Service::SetBlockProtection => RequestKind::SetProtection { block, on },
        Service::SetRamBlockStatus => RequestKind::SetRam { block, on },
        Service::ReadBlock => RequestKind::Read { block, ram: false },
        Service::WriteBlock => RequestKind::Write { block, store: 0 },
        Service::RestoreBlockDefaults => RequestKind::Restore { block, ram: false },
        Service::EraseNvBlock => RequestKind::Erase { block },
        Service::CancelWriteAll => RequestKind::CancelWriteAll,
        Service::InvalidateNvBlock => RequestKind::Invalidate { block },
        Service::ReadAll => RequestKind::ReadAll,
        Service::WriteAll => RequestKind::WriteAll,
        Service::SetBlockLockStatus => RequestKind::SetLock { block, on },
        Service::ReadPermanentRam => RequestKind::Read { block, ram: true },
        Service::WritePermanentRam => RequestKind::WriteRam { block, store: 0 },
        Service::RestorePermanentRam => RequestKind::Restore { block, ram: true },
        Service::PutRam => RequestKind::PutRam { block },
    }
}

// Asks the unit for a service. The content of one that brings none isn't handed on.
#[inline(always)]
fn ask_unit(
    alloc: Global,
    handle: &mut Handle,
    service: Service,
    block: u16,
    number: u8,
    content: &[u8],
) -> Outcome
    requires open { IsSome handle.old.kept }
    ensures { IsHandedOn (request_of service block number content.now) handle.old.kept result handle.new.kept }
{
    let kind = kind_of(service, block, number);
    let content = if brings_content(service) {
        content
    } else {
        &[]
    };
    let task = Task::Ask { kind, content };
    work_on(alloc, handle, UnitWork::Serve { task })
}

// An answer as C gets it.
fn answer_of(answer: Result<Reply, AskFault>) -> (u8, u8)
    ensures code { result.0 ≡ answer_code answer }
    ensures value { result.1 ≡ answer_value answer }
{
    match answer {
        Ok(Reply::Accepted) => (0, 0),
        Ok(Reply::Refused(why)) => (1, refusal_number(why)),
        Ok(Reply::StatusIs(result)) => (2, result_code(result)),
        Ok(Reply::IndexIs(index)) => (2, index),
        Err(AskFault::NoRoom) => (3, 0),
        Err(AskFault::Memory) => (4, 0),
    }
}

/// Asks for a service, by its number in the standard. 0: accepted. 1: refused, for the reason whose number is in `value`. 2: the data
/// index is in `value`. 3: the history is full. 4: there is no memory. 5: the last start-up failed. 6: no service has this number. In
/// all but the first three nothing changed.
#[unsafe(no_mangle)]
pub extern "C" fn nvm_ask(
    alloc: Global,
    handle: &mut Handle,
    service: u8,
    block: u16,
    number: u8,
    content: &[u8],
    value: &mut u8,
) -> u8
    requires open { IsSome handle.old.kept }
    ensures asked { Goes handle.old.kept handle.new.kept (IsAsked service block number content.now result value.new) }
{
    *value = 0;
    let Some(service) = service_of(service) else {
        return 6;
    };
    match ask_unit(alloc, handle, service, block, number, content) {
        Outcome::Asked { answer } => {
            let (code, told) = answer_of(answer);
            *value = told;
            code
        }
        _other => 5,
    }
}
