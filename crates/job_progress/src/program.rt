// The program of a job on any block.
ghost use Rattle.std.specs.Prelude.{◌≡◌, ◌≤◌, [], ◌∷◌, length, is_some};
ghost use Rattle.job_programs.specs.Program.{program_of, after, step_of};
ghost use Rattle.job_progress.specs.Hand.{program_in};

use block_machine::block_config::{BlockDesc, BlockKind};
use block_machine::nv_base::{JobKind, JobStep, Outcome};
use plain_blocks::PlainProgram;
use redundant_blocks::RedundantProgram;

/// The program of a job on one instance, or on both copies of a redundant block.
#[derive(Drop)]
pub enum JobProgram {
    Plain(PlainProgram),
    Redundant(RedundantProgram),
}

impl JobProgram {
    /// A job on a block, at its data index.
    pub fn begin(desc: &BlockDesc, block: u16, index: u8, job: JobKind) -> JobProgram
        ensures { program_in result ≡ program_of desc.now (is_some desc.now.defaults) block index job }
    {
        if desc.kind == BlockKind::Redundant {
            JobProgram::Redundant(RedundantProgram::begin(desc, block, index, job))
        } else {
            JobProgram::Plain(PlainProgram::begin(desc, block, index, job))
        }
    }

    /// Takes the outcome of the last step, `First` before any, and answers the next one.
    pub fn next(&mut self, outcome: Outcome) -> JobStep
        ensures after { program_in self.new ≡ after (program_in self.old) outcome }
        ensures step { result ≡ step_of (program_in self.new) }
    {
        match self {
            JobProgram::Plain(program) => program.next(outcome),
            JobProgram::Redundant(program) => program.next(outcome),
        }
    }

    /// The failed tries of the operation that it is at, 0 where it is at none.
    pub fn failures(&self) -> u8
        ensures { result ≡ (program_in self.now).failures }
    {
        match self {
            JobProgram::Plain(program) => program.failures(),
            JobProgram::Redundant(program) => program.failures(),
        }
    }

    /// How often an operation is tried again.
    pub fn retries(&self) -> u8
        ensures { result ≡ (program_in self.now).retries }
    {
        match self {
            JobProgram::Plain(program) => program.retries(),
            JobProgram::Redundant(program) => program.retries(),
        }
    }

    /// On how many instances it works: both copies of a redundant block, one of another, or none where it needs no operation.
    pub fn instances(&self) -> u8
        ensures count { result ≡ length (program_in self.now).indices }
        ensures within { result ≤ 2 }
        ensures copies { result ≡ 2 → (program_in self.now).indices ≡ 0 ∷ 1 ∷ [] }
    {
        match self {
            JobProgram::Plain(program) => program.instances(),
            JobProgram::Redundant(program) => program.instances(),
        }
    }
}
