// The driver's hand.
ghost use Rattle.std.specs.Prelude.{◌≡◌, ◌≤◌, is_some, true, false, [], ◌∷◌, length};
ghost use Rattle.job_progress.specs.Hand.{began, finished, with_start, ended, is_finished};

use crate::JobProgram;
use block_machine::block_config::BlockDesc;
use block_machine::nv_base::{GivenFrom, JobKind, JobStep, Outcome, ReqResult};
use std::marker::Model;

/// The job in hand at the device: its program, the step that this named last, and whether the device is at that step.
/// Contracts see these three.
#[derive(Drop)]
pub struct Hand {
    program: JobProgram,
    step: JobStep,
    started: bool,
}

impl Model for Hand {
    ghost use Rattle.job_progress.specs.Hand.{HandState, program_in};

    ghost Value = { HandState };

    ghost view = { λ h. record { program = program_in h.program; step = h.step; started = h.started } };
}

impl Hand {
    /// A job on a block, at its data index, that nothing was done of.
    pub fn begin(desc: &BlockDesc, block: u16, index: u8, job: JobKind) -> Hand
        ensures { result ≡ began desc.now (is_some desc.now.defaults) block index job }
    {
        let mut program = JobProgram::begin(desc, block, index, job);
        let step = program.next(Outcome::First);
        Hand {
            program,
            step,
            started: false,
        }
    }

    /// A job that ends with this result, without an operation.
    pub fn finished(
        desc: &BlockDesc,
        block: u16,
        index: u8,
        job: JobKind,
        answer: ReqResult,
    ) -> Hand
        ensures { result ≡ finished desc.now (is_some desc.now.defaults) block index job answer }
    {
        Hand {
            program: JobProgram::begin(desc, block, index, job),
            step: JobStep::Ended {
                result: answer,
                source: GivenFrom::Nothing,
            },
            started: false,
        }
    }

    /// What its program named last.
    pub fn step(&self) -> JobStep
        ensures { result ≡ self.now.step }
    {
        self.step
    }

    /// Whether the device is at that.
    pub fn is_started(&self) -> bool
        ensures { result ≡ self.now.started }
    {
        self.started
    }

    /// Whether nothing is left to do of the job but its Post.
    pub fn is_finished(&self) -> bool
        ensures { result ≡ is_finished self.now.step }
    {
        matches!(self.step, JobStep::Ended { .. })
    }

    /// The failed tries of the operation that its program is at, 0 where it is at none.
    pub fn failures(&self) -> u8
        ensures { result ≡ self.now.program.failures }
    {
        self.program.failures()
    }

    /// How often its program tries an operation again.
    pub fn retries(&self) -> u8
        ensures { result ≡ self.now.program.retries }
    {
        self.program.retries()
    }

    /// On how many instances its program works: both copies of a redundant block, one of another, or none where it needs no
    /// operation.
    pub fn instances(&self) -> u8
        ensures count { result ≡ length self.now.program.indices }
        ensures within { result ≤ 2 }
        ensures copies { result ≡ 2 → self.now.program.indices ≡ 0 ∷ 1 ∷ [] }
    {
        self.program.instances()
    }

    /// The device begins with the step.
    pub fn start(&mut self)
        ensures { self.new ≡ with_start self.old }
    {
        self.started = true;
    }

    /// The step came to this outcome.
    pub fn end(&mut self, outcome: Outcome)
        ensures { self.new ≡ ended outcome self.old }
    {
        self.step = self.program.next(outcome);
        self.started = false;
    }
}
