// The table of results.
ghost use Rattle.std.specs.Prelude.{◌≡◌, [], ◌∷◌};
ghost use Rattle.block_machine.specs.nv_base.declared.job.GivenFrom.TheVariants as from;
ghost use Rattle.block_machine.specs.ResultTable.{defaults_or, read_one, read_copies, write_result, table};
ghost use Rattle.job_programs.specs.Program.{ended_by, settles};

use block_machine::nv_base::{GivenFrom, JobKind, JobStep, Outcome, ReqResult};

fn ended(code: ReqResult, source: GivenFrom) -> JobStep
    ensures { result ≡ ended_by (code, source) }
{
    JobStep::Ended {
        result: code,
        source,
    }
}

// The defaults, or another result with nothing where the block has none.
fn defaults_or(defaults: bool, other: ReqResult) -> JobStep
    ensures { result ≡ ended_by (defaults_or defaults other) }
{
    if defaults {
        JobStep::Ended {
            result: ReqResult::Restored,
            source: GivenFrom::Defaults,
        }
    } else {
        JobStep::Ended {
            result: other,
            source: GivenFrom::Nothing,
        }
    }
}

fn read_one(defaults: bool, outcome: Outcome) -> JobStep
    ensures { result ≡ ended_by (read_one defaults outcome) }
{
    match outcome {
        Outcome::Read => ended(ReqResult::Fine, GivenFrom::Device),
        Outcome::Invalid => ended(ReqResult::Invalidated, GivenFrom::Nothing),
        Outcome::Inconsistent => defaults_or(defaults, ReqResult::IntegrityFailed),
        _ => defaults_or(defaults, ReqResult::NotOk),
    }
}

fn read_copies(defaults: bool, copy_0: Outcome, copy_1: Outcome) -> JobStep
    ensures { result ≡ ended_by (read_copies defaults copy_0 copy_1) }
{
    match (copy_0, copy_1) {
        (Outcome::Read, _) | (Outcome::Inconsistent, Outcome::Read) => {
            ended(ReqResult::Fine, GivenFrom::Device)
        }
        (Outcome::Invalid, _) => ended(ReqResult::Invalidated, GivenFrom::Nothing),
        (_, Outcome::Read) => ended(ReqResult::RedundancyFailed, GivenFrom::Device),
        (_, Outcome::Invalid) => ended(ReqResult::Invalidated, GivenFrom::Nothing),
        (Outcome::Inconsistent, Outcome::Inconsistent) => {
            defaults_or(defaults, ReqResult::IntegrityFailed)
        }
        _ => defaults_or(defaults, ReqResult::NotOk),
    }
}

fn write_copies(copy_0: Outcome, copy_1: Outcome) -> JobStep
    ensures { result ≡ ended_by (write_result (copy_0 ∷ copy_1 ∷ []), from.Nothing) }
{
    match (copy_0, copy_1) {
        (Outcome::Wrote, Outcome::Wrote) => ended(ReqResult::Fine, GivenFrom::Nothing),
        (Outcome::Wrote, _) | (_, Outcome::Wrote) => {
            ended(ReqResult::RedundancyFailed, GivenFrom::Nothing)
        }
        _ => ended(ReqResult::NotOk, GivenFrom::Nothing),
    }
}

/// The end of a job without an operation: of a read the ROM dataset, of a restore the defaults.
pub fn end_of_none(defaults: bool, job: JobKind) -> JobStep
    ensures { result ≡ ended_by (table defaults job []) }
{
    match job {
        JobKind::Read => ended(ReqResult::Fine, GivenFrom::Rom),
        JobKind::Restore => ended(ReqResult::Fine, GivenFrom::Defaults),
        _ => ended(ReqResult::NotOk, GivenFrom::Nothing),
    }
}

/// The end of a job on one instance, of a block that has defaults or none.
pub fn end_of_one(defaults: bool, job: JobKind, outcome: Outcome) -> JobStep
    ensures { result ≡ ended_by (table defaults job (outcome ∷ [])) }
{
    match (job, outcome) {
        (JobKind::Read, _) => read_one(defaults, outcome),
        (JobKind::Restore, _) => ended(ReqResult::Fine, GivenFrom::Defaults),
        (_, Outcome::Wrote) => ended(ReqResult::Fine, GivenFrom::Nothing),
        _ => ended(ReqResult::NotOk, GivenFrom::Nothing),
    }
}

/// The end of a job on two copies. Of a read the second counts only where the first gave neither a content nor Invalid.
pub fn end_of_two(defaults: bool, job: JobKind, copy_0: Outcome, copy_1: Outcome) -> JobStep
    ensures { result ≡ ended_by (table defaults job (copy_0 ∷ copy_1 ∷ [])) }
{
    match job {
        JobKind::Read => read_copies(defaults, copy_0, copy_1),
        JobKind::Restore => ended(ReqResult::Fine, GivenFrom::Defaults),
        _ => write_copies(copy_0, copy_1),
    }
}
