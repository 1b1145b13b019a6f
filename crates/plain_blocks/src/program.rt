// A job on one instance.
ghost use Rattle.std.specs.Prelude.{◌≡◌, ◌≢◌, ◌≤◌, length, is_some};
ghost use Rattle.block_machine.specs.block_config.declared.block.BlockKind.TheVariants as kind;
ghost use Rattle.job_programs.specs.Program.{program_of, after, step_of};
ghost use Rattle.plain_blocks.specs.declared.program.PlainProgram.TheInside.{Inside};
ghost use Rattle.plain_blocks.specs.Inside.{shown};

use block_machine::block_config::{BlockDesc, BlockKind};
use block_machine::nv_base::{JobKind, JobStep, Outcome};
use job_programs::{ProgramJob, end_of_none, end_of_one, is_again, works};
use std::marker::Model;

/// Where a job stands: it needs no operation; it is at one, after so many failed tries; or that one is done.
#[derive(Clone, Copy)]
enum Stand {
    Needless,
    At { index: u8, failures: u8 },
    Done { index: u8, outcome: Outcome },
}

impl Stand {
    // Where the job stands behind an outcome.
    fn behind(self, outcome: Outcome, retries: u8) -> Stand
        ensures { (p : Inside) → p.stand ≡ self → p.job.retries ≡ retries → shown (record p { stand = result }) ≡ after (shown p) outcome }
    {
        match self {
            Stand::At { index, failures } if outcome != Outcome::First => {
                if is_again(outcome, failures, retries) {
                    Stand::At {
                        index,
                        failures: failures + 1,
                    }
                } else {
                    Stand::Done { index, outcome }
                }
            }
            stand => stand,
        }
    }
}

/// A job on a native block or a dataset. Contracts see what is done of it.
#[derive(Drop)]
pub struct PlainProgram {
    job: ProgramJob,
    stand: Stand,
}

impl Model for PlainProgram {
    ghost use Rattle.job_programs.specs.Program.{Program};

    ghost Value = { Program };

    ghost use Rattle.plain_blocks.specs.Inside.{shown};

    ghost view = { shown };
}

impl PlainProgram {
    /// A job on a block, at its data index. An index of a ROM dataset needs no operation.
    pub fn begin(desc: &BlockDesc, block: u16, index: u8, job: JobKind) -> PlainProgram
        requires { desc.now.kind ≢ kind.Redundant }
        ensures { result ≡ program_of desc.now (is_some desc.now.defaults) block index job }
    {
        let dataset = desc.kind == BlockKind::Dataset;
        let stand = if !works(job) || dataset && index >= desc.nv {
            Stand::Needless
        } else {
            Stand::At {
                index: if dataset { index } else { 0 },
                failures: 0,
            }
        };
        PlainProgram {
            job: ProgramJob::new(desc, block, job),
            stand,
        }
    }

    /// Takes the outcome of the last step, `First` before any, and answers the next one.
    pub fn next(&mut self, outcome: Outcome) -> JobStep
        ensures after { self.new ≡ after self.old outcome }
        ensures step { result ≡ step_of self.new }
    {
        self.stand = self.stand.behind(outcome, self.job.retries);
        self.step()
    }

    /// The failed tries of the operation that it is at, 0 where it is at none.
    pub fn failures(&self) -> u8
        ensures { result ≡ self.now.failures }
    {
        match self.stand {
            Stand::At { failures, .. } => failures,
            _ => 0,
        }
    }

    /// How often an operation is tried again.
    pub fn retries(&self) -> u8
        ensures { result ≡ self.now.retries }
    {
        self.job.retries
    }

    /// On how many instances it works: one, or none where it needs no operation.
    pub fn instances(&self) -> u8
        ensures count { result ≡ length self.now.indices }
        ensures within { result ≤ 1 }
    {
        match self.stand {
            Stand::Needless => 0,
            _ => 1,
        }
    }

    fn step(&self) -> JobStep
        ensures { result ≡ step_of self.now }
    {
        let job = self.job;
        match self.stand {
            Stand::Needless => end_of_none(job.defaults, job.kind),
            Stand::At { index, .. } => job.operation_on(index),
            Stand::Done { outcome, .. } => end_of_one(job.defaults, job.kind, outcome),
        }
    }
}
