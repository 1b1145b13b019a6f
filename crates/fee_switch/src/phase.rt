// What a switch is doing, and what its calls answer.
ghost use Rattle.std.specs.Prelude.{◌≡◌};
ghost use Rattle.fee_switch.specs.Banks.{phase_of};

use fee_course::Course;

/// No switch is open; or one erases its target, copies, or programs its head and gate; or its gate failed and is programmed
/// again.
#[derive(Clone, Copy, PartialEq, Eq)]
pub enum Phase {
    None,
    Erase,
    Copy,
    Seal,
    Doubtful,
}

/// The answer of a start-up: the banks are ready, or a read failed, which a fault counts.
#[derive(Clone, Copy)]
pub enum BankStart {
    Ready,
    Failed,
}

/// The answer to the beginning of a switch: it is open, or the active bank has the last generation.
#[derive(Clone, Copy)]
pub enum BankBegin {
    Begun,
    WornOut,
}

/// The phase of a course, if a switch is open.
pub(crate) fn phase_of(course: Option<Course>) -> Phase
    ensures { result ≡ phase_of course }
{
    match course {
        None => Phase::None,
        Some(Course::Erase { .. }) => Phase::Erase,
        Some(Course::Copy { .. }) => Phase::Copy,
        Some(Course::Gate { failed: true }) => Phase::Doubtful,
        Some(_) => Phase::Seal,
    }
}
