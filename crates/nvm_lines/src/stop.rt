// Why a command stops before its end.
ghost use Rattle.std.specs.Prelude.{◌≡◌, IfOk, string_bytes};
ghost use Rattle.nvm_lines.specs.Stop.{status_of, line_of};

use crate::Status;
use std::alloc::{AllocError, Global};

/// Why a command stops: its words are of no command, its first line breaks a rule, a line is no step, its input failed
/// or is too long, a second device is named and missing, the flash failed, has a wrong size, or is in use by another call, the history
/// has no room, want of memory, or the power went off.
#[derive(Clone, Copy, PartialEq, Eq)]
pub enum Stop {
    BadWords,
    BadConfig { rule: u8, block: u16 },
    BadScript { line: u32 },
    ReadFault,
    TooLong,
    WrongSize { found: u64, need: u64 },
    FlashFault,
    HistoryFull,
    Memory,
    NoSecond,
    PowerOff,
    InUse,
}

impl From<AllocError> for Stop {
    ghost use Rattle.nvm_lines.specs.declared.stop.Stop.TheVariants.{Memory};

    ghost from_gives = { λ _ stop. stop ≡ Memory };

    fn from(_error: AllocError) -> Stop {
        Stop::Memory
    }
}

impl Stop {
    /// The status that it gives.
    pub fn status(self) -> Status
        ensures { result ≡ status_of self }
    {
        match self {
            Stop::BadWords => Status::BadWords,
            Stop::BadConfig { .. } => Status::BadConfig,
            Stop::BadScript { .. } => Status::BadScript,
            Stop::ReadFault => Status::ReadFault,
            Stop::TooLong => Status::TooLong,
            Stop::WrongSize { .. } => Status::WrongSize,
            Stop::FlashFault => Status::FlashFault,
            Stop::HistoryFull => Status::HistoryFull,
            Stop::Memory => Status::Memory,
            Stop::NoSecond => Status::NoSecond,
            Stop::PowerOff => Status::PowerOff,
            Stop::InUse => Status::InUse,
        }
    }

    /// The line that says so, with its newline; none at want of memory.
    pub fn line(self, alloc: Global) -> Result<String, AllocError>
        ensures { IfOk result (λ t. string_bytes t ≡ line_of self) }
    {
        match self {
            Stop::BadWords => String::from_str(alloc, "bad words\n"),
            Stop::BadConfig { rule, block } => {
                format!(in alloc; "config rule {rule} block {block}\n")
            }
            Stop::BadScript { line } => format!(in alloc; "script {line}\n"),
            Stop::ReadFault => String::from_str(alloc, "input fault\n"),
            Stop::TooLong => String::from_str(alloc, "input too long\n"),
            Stop::WrongSize { found, need } => format!(in alloc; "size {found} {need}\n"),
            Stop::FlashFault => String::from_str(alloc, "flash fault\n"),
            Stop::HistoryFull => String::from_str(alloc, "history full\n"),
            Stop::Memory => Ok(String::new(alloc)),
            Stop::NoSecond => String::from_str(alloc, "no second device\n"),
            Stop::PowerOff => String::from_str(alloc, "power off\n"),
            Stop::InUse => String::from_str(alloc, "flash in use\n"),
        }
    }
}
