// Why a service refuses a request.
ghost use Rattle.std.specs.Prelude.{◌≡◌};
ghost use Rattle.uds_gateway.specs.Services.{number_of};

/// Why a service refuses a request (the negative response codes of ISO 14229-1).
#[derive(Clone, Copy, PartialEq, Eq)]
pub enum NegativeCode {
    /// 11, serviceNotSupported: it is neither of the two services.
    ServiceNotSupported,
    /// 13, incorrectMessageLengthOrInvalidFormat: too few bytes or too many.
    IncorrectLength,
    /// 22, conditionsNotCorrect: the NVRAM Manager refused it, or a read gave no content.
    ConditionsNotCorrect,
    /// 31, requestOutOfRange: the identifier names no block.
    OutOfRange,
    /// 72, generalProgrammingFailure: not all copies were written.
    ProgrammingFailure,
}

impl NegativeCode {
    /// Its number.
    pub fn number(self) -> u8
        ensures { result ≡ number_of self }
    {
        match self {
            NegativeCode::ServiceNotSupported => 0x11,
            NegativeCode::IncorrectLength => 0x13,
            NegativeCode::ConditionsNotCorrect => 0x22,
            NegativeCode::OutOfRange => 0x31,
            NegativeCode::ProgrammingFailure => 0x72,
        }
    }
}
