// Requests of the callers and their replies.
ghost use Rattle.std.specs.Prelude.{◌≡◌};
ghost use Rattle.nv_base.specs.Refusal.{number_of_refusal};

use crate::{Bytes, ReqResult};

/// What a caller asks of the NVRAM Manager: a service with its block number. `ram` names the block's RAM in place of
/// the caller's own buffer, and so does a write without content. `store` is 0, but in a RAM write of a synchronized
/// block the number of the caller's last store.
#[derive(Clone, Drop)]
pub enum Request {
    /// NvM_ReadBlock.
    Read {
        block: u16,
        ram: bool,
    },
    /// NvM_WriteBlock.
    Write {
        block: u16,
        content: Option<Bytes>,
        store: u64,
    },
    /// NvM_RestoreBlockDefaults.
    Restore {
        block: u16,
        ram: bool,
    },
    /// NvM_EraseNvBlock.
    Erase {
        block: u16,
    },
    /// NvM_InvalidateNvBlock.
    Invalidate {
        block: u16,
    },
    /// NvM_SetDataIndex.
    SetIndex {
        block: u16,
        index: u8,
    },
    /// NvM_GetDataIndex.
    GetIndex {
        block: u16,
    },
    /// NvM_SetBlockProtection.
    SetProtection {
        block: u16,
        on: bool,
    },
    /// NvM_SetBlockLockStatus.
    SetLock {
        block: u16,
        on: bool,
    },
    /// NvM_SetRamBlockStatus: the RAM is changed, or it is neither valid nor changed.
    SetRam {
        block: u16,
        on: bool,
    },
    /// The application writes the block's RAM, by no service.
    PutRam {
        block: u16,
        content: Bytes,
    },
    /// NvM_GetErrorStatus. Block 0 stands for the last request on all blocks.
    Status {
        block: u16,
    },
    /// NvM_ReadAll.
    ReadAll,
    /// NvM_WriteAll.
    WriteAll,
    /// NvM_CancelWriteAll.
    CancelWriteAll,
}

/// Why a request is refused, each with its number, in the order in which the refusals are tested. Which request tests
/// which, and exactly when each holds, is the acceptance's to say.
#[derive(Clone, Copy, PartialEq, Eq)]
pub enum Refusal {
    /// 1: no block has this number.
    UnknownBlock,
    /// 2: no start-up found the marks since the power was last off.
    NotStarted,
    /// 3: a block of this type doesn't take this request.
    WrongType,
    /// 4: the data index is beyond those of the block.
    BadIndex,
    /// 5: the content hasn't the block's length.
    BadLength,
    /// 6: the block has no RAM that this request may name.
    NoRam,
    /// 7: the block has no defaults.
    NoDefaults,
    /// 8: the block hasn't priority 0.
    NotImmediate,
    /// 9: the block is written once, and its protection stays.
    WriteOnce,
    /// 10: a request on all blocks is pending.
    MultiPending,
    /// 11: the block's own job is pending.
    Pending,
    /// 12: the block is locked.
    Locked,
    /// 13: the block is protected.
    Protected,
    /// 14: the data index names ROM.
    RomIndex,
    /// 15: no write of all blocks is pending, or it was canceled already.
    NothingToCancel,
    /// 16: the queue is full.
    QueueFull,
    /// 17: the history has no room for the job's entries.
    HistoryFull,
}

/// The answer to a request: accepted, refused, or the status or data index that was asked for.
#[derive(Clone, Copy, PartialEq, Eq)]
pub enum Reply {
    Accepted,
    Refused(Refusal),
    StatusIs(ReqResult),
    IndexIs(u8),
}

/// A job that an accepted request makes.
#[derive(Clone, Copy, PartialEq, Eq)]
pub enum JobKind {
    Read,
    Write,
    Restore,
    Erase,
    Invalidate,
    ReadAll,
    WriteAll,
}

/// The number of a refusal, 1 to 17 in the order of the variants.
pub fn refusal_number(refusal: Refusal) -> u8
    ensures { result ≡ number_of_refusal refusal }
{
    refusal as u8 + 1
}
