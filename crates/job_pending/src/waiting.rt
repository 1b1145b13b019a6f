// What a queue knows of a job.
ghost use Rattle.std.specs.Prelude.{◌≡◌};
ghost use Rattle.block_machine.specs.Blocks.{desc_of, is_immediate, rank_of};
ghost use Rattle.job_queues.specs.Laws.{waiting_of};

use crate::Job;
use block_machine::block_config::Config;
use block_machine::nv_base::Request;
use job_queues::Waiting;

/// A job as it waits in its queue.
pub fn waiting_of(config: &Config, job: &Job) -> Waiting
    ensures { result ≡ waiting_of config.now job.now }
{
    let block = job.block();
    Waiting {
        block,
        priority: priority_of(config, block),
        immediate: is_immediate(config, job),
        number: u64::from(job.number()),
    }
}

/// Whether it is immediate.
pub fn is_immediate(config: &Config, job: &Job) -> bool
    ensures { result ≡ (rank_of config.now job.now).immediate }
{
    !job.is_member() && is_immediate_request(config, job.request())
}

fn is_immediate_request(config: &Config, request: &Request) -> bool
    ensures { result ≡ is_immediate config.now request.now }
{
    match request {
        Request::Write { block, .. } => priority_of(config, *block) == 0,
        _ => false,
    }
}

/// The priority of a block, or the usual one where it isn't configured.
pub fn priority_of(config: &Config, block: u16) -> u8
    ensures { result ≡ (desc_of config.now block).priority }
{
    match config.block(block) {
        Some(desc) => desc.priority,
        None => 100,
    }
}
