// The program of a job, and its job at the device.
ghost use Rattle.std.specs.Prelude.{◌≡◌, Option};
ghost use Rattle.block_machine.specs.nv_base.declared.mark.Mark.{Mark};
ghost use Rattle.memif.specs.Told.{op_of};
ghost use Rattle.job_programs.specs.Program.{Program, after, step_of};
ghost use Rattle.nvm_device_laws.specs.Outcomes.{outcome_by};

use block_machine::nv_base::{DeviceNumber, DeviceOp, JobStep, Outcome};
use memif::{DeviceRefusal, JobResult, MemDevice};
use plain_blocks::PlainProgram;
use redundant_blocks::RedundantProgram;

/// A job's program, of which operation of the device comes next.
pub trait JobSteps {
    /// What the job is, and what is done of it.
    ghost shown: { Self → Program };

    /// Takes the outcome of the last step, `First` before any, and answers the next one.
    fn next(&mut self, outcome: Outcome) -> JobStep
        ensures after { shown self.new ≡ after (shown self.old) outcome }
        ensures step { result ≡ step_of (shown self.new) };
}

impl JobSteps for PlainProgram {
    ghost shown = { λ p. p };

    fn next(&mut self, outcome: Outcome) -> JobStep {
        PlainProgram::next(self, outcome)
    }
}

impl JobSteps for RedundantProgram {
    ghost shown = { λ p. p };

    fn next(&mut self, outcome: Outcome) -> JobStep {
        RedundantProgram::next(self, outcome)
    }
}

/// What a job of the device came to, as the program sees it that asked for this operation.
pub fn outcome_of(op: DeviceOp, came: JobResult) -> Outcome
    ensures { (mark : Option Mark) → op_of mark ≡ op → result ≡ outcome_by mark came }
{
    match (op, came) {
        (DeviceOp::Read, JobResult::JobOk) => Outcome::Read,
        (DeviceOp::Read, JobResult::BlockInvalid) => Outcome::Invalid,
        (DeviceOp::Read, JobResult::BlockInconsistent) => Outcome::Inconsistent,
        (DeviceOp::Read, _) => Outcome::Failed,
        (_, JobResult::JobOk) => Outcome::Wrote,
        _ => Outcome::Failed,
    }
}
