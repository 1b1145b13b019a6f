// The job of a program.
ghost use Rattle.std.specs.Prelude.{◌≡◌, is_some};
ghost use Rattle.block_machine.specs.nv_base.declared.job.JobStep.TheVariants.{Device};
ghost use Rattle.job_programs.specs.Program.{operation, retries_of};

use crate::job::{operation, retries};
use block_machine::block_config::BlockDesc;
use block_machine::nv_base::{Instance, JobKind, JobStep};

/// A job on a block, as its program keeps it: whether the block has defaults, and how often an operation is tried again.
#[derive(Clone, Copy)]
pub struct ProgramJob {
    pub block: u16,
    pub kind: JobKind,
    pub defaults: bool,
    pub retries: u8,
}

impl ProgramJob {
    /// A job on a block of this description.
    pub fn new(desc: &BlockDesc, block: u16, kind: JobKind) -> ProgramJob
        ensures { result ≡ record { block = block; kind = kind; defaults = is_some desc.now.defaults; retries = retries_of desc.now kind } }
    {
        ProgramJob {
            block,
            kind,
            defaults: desc.defaults.is_some(),
            retries: retries(desc, kind),
        }
    }

    /// Its operation on an instance.
    pub fn operation_on(self, index: u8) -> JobStep
        ensures { result ≡ Device (operation self.kind) (record { block = self.block; index = index }) }
    {
        JobStep::Device {
            op: operation(self.kind),
            instance: Instance {
                block: self.block,
                index,
            },
        }
    }
}
