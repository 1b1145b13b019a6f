// The answer of an append's step.
ghost use Rattle.std.specs.Prelude.{◌≡◌};
ghost use Rattle.fee_log.specs.Step.{answer_of};

use fls_model::FlashAnswer;

/// What a step did: a page that others follow, the commit gate, nothing by a counted fault of the flash, or nothing
/// as the power is off.
#[derive(Clone, Copy)]
pub enum LogStep {
    More,
    Committed,
    Failed,
    Off,
}

impl LogStep {
    /// The flash's answer to it.
    pub fn answer(self) -> FlashAnswer
        ensures { result ≡ answer_of self }
    {
        match self {
            LogStep::More | LogStep::Committed => FlashAnswer::Done,
            LogStep::Failed => FlashAnswer::Failed,
            LogStep::Off => FlashAnswer::Off,
        }
    }
}
