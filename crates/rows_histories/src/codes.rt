// Refusals and results by their numbers.
use block_machine::nv_base::{Refusal, ReqResult};

/// The refusal with a number, from 1; of a number that none has, the first one.
pub fn refusal_of(number: u64) -> Refusal {
    match number {
        2 => Refusal::NotStarted,
        3 => Refusal::WrongType,
        4 => Refusal::BadIndex,
        5 => Refusal::BadLength,
        6 => Refusal::NoRam,
        7 => Refusal::NoDefaults,
        8 => Refusal::NotImmediate,
        9 => Refusal::WriteOnce,
        10 => Refusal::MultiPending,
        11 => Refusal::Pending,
        12 => Refusal::Locked,
        13 => Refusal::Protected,
        14 => Refusal::RomIndex,
        15 => Refusal::NothingToCancel,
        16 => Refusal::QueueFull,
        17 => Refusal::HistoryFull,
        _ => Refusal::UnknownBlock,
    }
}

/// The result with a number; of a number that none has, the first one.
pub fn result_of(number: u64) -> ReqResult {
    match number {
        1 => ReqResult::NotOk,
        2 => ReqResult::Pending,
        3 => ReqResult::IntegrityFailed,
        4 => ReqResult::BlockSkipped,
        5 => ReqResult::Invalidated,
        6 => ReqResult::Canceled,
        7 => ReqResult::RedundancyFailed,
        8 => ReqResult::Restored,
        _ => ReqResult::Fine,
    }
}
