// How a command ends.
ghost use Rattle.std.specs.Prelude.{◌≡◌};
ghost use Rattle.nvm_lines.specs.Status.{code_of_status};

/// How a command ends.
#[derive(Clone, Copy)]
pub enum Status {
    Ok,
    BadWords,
    BadConfig,
    BadScript,
    ReadFault,
    WriteFault,
    FlashFault,
    Memory,
    WrongSize,
    TooLong,
    HistoryFull,
    NoSecond,
    PowerOff,
    InUse,
}

impl Status {
    /// The exit status of the program: 0 for Ok, 14 for NoSecond, 15 for PowerOff, 75 for InUse, and 2 to 11 for the others.
    pub fn code(self) -> u8
        ensures { result ≡ code_of_status self }
    {
        match self {
            Status::Ok => 0,
            Status::NoSecond => 14,
            Status::PowerOff => 15,
            Status::InUse => 75,
            other => other as u8 + 1,
        }
    }
}
