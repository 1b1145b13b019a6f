// A job on two copies.
ghost use Rattle.std.specs.Prelude.{◌≡◌, ◌==◌, if◌then◌else◌, [], ◌∷◌, length, is_some};
ghost use Rattle.block_machine.specs.block_config.declared.block.BlockKind.TheVariants as kind;
ghost use Rattle.job_programs.specs.Program.{program_of, after, step_of};
ghost use Rattle.redundant_blocks.specs.declared.program.RedundantProgram.TheInside.{Inside};
ghost use Rattle.redundant_blocks.specs.Inside.{shown};

use block_machine::block_config::BlockDesc;
use block_machine::nv_base::{JobKind, JobStep, Outcome};
use job_programs::{ProgramJob, end_of_none, end_of_two, is_again, settles, works};
use std::marker::Model;

/// Where a job stands: it needs no operation; it is at copy 0, after so many failed tries; copy 0 is done, and it is at
/// copy 1, if it needs that; or both are done.
#[derive(Clone, Copy)]
enum Stand {
    Needless,
    AtFirst { failures: u8 },
    AtSecond { copy_0: Outcome, failures: u8 },
    Done { copy_0: Outcome, copy_1: Outcome },
}

impl Stand {
    // Where the job stands behind an outcome.
    fn behind(self, outcome: Outcome, kind: JobKind, retries: u8) -> Stand
        ensures { (p : Inside) → p.stand ≡ self → p.job.kind ≡ kind → p.job.retries ≡ retries → shown (record p { stand = result }) ≡ after (shown p) outcome }
    {
        match self {
            Stand::AtFirst { failures } if outcome != Outcome::First => {
                if is_again(outcome, failures, retries) {
                    Stand::AtFirst {
                        failures: failures + 1,
                    }
                } else {
                    Stand::AtSecond {
                        copy_0: outcome,
                        failures: 0,
                    }
                }
            }
            Stand::AtSecond { copy_0, failures }
                if outcome != Outcome::First && !settles(kind, copy_0) => {
                if is_again(outcome, failures, retries) {
                    Stand::AtSecond {
                        copy_0,
                        failures: failures + 1,
                    }
                } else {
                    Stand::Done {
                        copy_0,
                        copy_1: outcome,
                    }
                }
            }
            stand => stand,
        }
    }
}

/// A job on a redundant block. Contracts see what is done of it.
#[derive(Drop)]
pub struct RedundantProgram {
    job: ProgramJob,
    stand: Stand,
}

impl Model for RedundantProgram {
    ghost use Rattle.job_programs.specs.Program.{Program};

    ghost Value = { Program };

    ghost use Rattle.redundant_blocks.specs.Inside.{shown};

    ghost view = { shown };
}

impl RedundantProgram {
    /// A job on a block. The data index means nothing here.
    pub fn begin(desc: &BlockDesc, block: u16, index: u8, job: JobKind) -> RedundantProgram
        requires { desc.now.kind ≡ kind.Redundant }
        ensures { result ≡ program_of desc.now (is_some desc.now.defaults) block index job }
    {
        let stand = if works(job) {
            Stand::AtFirst { failures: 0 }
        } else {
            Stand::Needless
        };
        RedundantProgram {
            job: ProgramJob::new(desc, block, job),
            stand,
        }
    }

    /// Takes the outcome of the last step, `First` before any, and answers the next one.
    pub fn next(&mut self, outcome: Outcome) -> JobStep
        ensures after { self.new ≡ after self.old outcome }
        ensures step { result ≡ step_of self.new }
    {
        self.stand = self.stand.behind(outcome, self.job.kind, self.job.retries);
        self.step()
    }

    /// The failed tries of the operation that it is at, 0 where it is at none.
    pub fn failures(&self) -> u8
        ensures { result ≡ self.now.failures }
    {
        match self.stand {
            Stand::AtFirst { failures } | Stand::AtSecond { failures, .. } => failures,
            _ => 0,
        }
    }

    /// How often an operation is tried again.
    pub fn retries(&self) -> u8
        ensures { result ≡ self.now.retries }
    {
        self.job.retries
    }

    /// On how many instances it works: both copies, or none where it needs no operation.
    pub fn instances(&self) -> u8
        ensures count { result ≡ length self.now.indices }
        ensures copies { self.now.indices ≡ (if result == 2 then 0 ∷ 1 ∷ [] else []) }
    {
        match self.stand {
            Stand::Needless => 0,
            _ => 2,
        }
    }

    fn step(&self) -> JobStep
        ensures { result ≡ step_of self.now }
    {
        let job = self.job;
        match self.stand {
            Stand::Needless => end_of_none(job.defaults, job.kind),
            Stand::AtFirst { .. } => job.operation_on(0),
            Stand::AtSecond { copy_0, .. } if !settles(job.kind, copy_0) => job.operation_on(1),
            Stand::AtSecond { copy_0, .. } => {
                end_of_two(job.defaults, job.kind, copy_0, Outcome::Failed)
            }
            Stand::Done { copy_0, copy_1 } => end_of_two(job.defaults, job.kind, copy_0, copy_1),
        }
    }
}
