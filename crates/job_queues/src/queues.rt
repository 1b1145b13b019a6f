// The two queues.
ghost use Rattle.std.specs.Prelude.{◌≡◌, ◌+◌, ◌-◌, ◌^◌, ◌<◌, ◌≤◌, ◌↔◌, ◌==◌, not, [], length, true, false, IfOk};
ghost use Rattle.job_queues.specs.Jobs.{jobs_of, size_of, first_in, found_in, with_job, with_job_first, without_first, without_block};

use crate::Waiting;
use crate::queue::Queue;
use std::alloc::{AllocError, Global};
use std::marker::Model;

/// The jobs that wait, each in the immediate or the standard queue. Contracts see both as lists, in the order in which
/// the jobs came, with their sizes.
#[derive(Drop)]
pub struct Queues {
    immediate: Queue,
    standard: Queue,
}

impl Model for Queues {
    ghost use Rattle.std.specs.Prelude.{◌<◌, ◌^◌};
    ghost use Rattle.job_queues.specs.Jobs.{Jobs};

    ghost Value = { Jobs };

    ghost view = { λ q. record { immediate = q.immediate.items; standard = q.standard.items; immediate_size = q.immediate.capacity; standard_size = q.standard.capacity } };

    ghost invariant = { λ q. (q.immediate.capacity < 2 ^ 16) × (q.standard.capacity < 2 ^ 16) };
}

impl Queues {
    /// Empty queues of these sizes. It takes all the memory that they ever need.
    pub fn make(alloc: Global, standard: u16, immediate: u16) -> Result<Queues, AllocError>
        ensures { IfOk result (λ q. q ≡ record { immediate = []; standard = []; immediate_size = immediate; standard_size = standard }) }
    {
        let immediate = Queue::make(alloc, immediate)?;
        let standard = Queue::make(alloc, standard)?;
        Ok(Queues {
            immediate,
            standard,
        })
    }

    /// Puts a job behind those of its queue. False exactly where that queue holds its size; nothing changes then. It
    /// looks at the last one alone.
    pub fn add(&mut self, job: Waiting) -> bool
        ensures room { (result ≡ true) ↔ (length (jobs_of self.old job.immediate) < size_of self.old job.immediate) }
        ensures added { result ≡ true → self.new ≡ with_job job self.old }
        ensures full { result ≡ false → self.new ≡ self.old }
    {
        if job.immediate {
            self.immediate.add(job)
        } else {
            self.standard.add(job)
        }
    }

    /// Puts a job that was taken before those of its queue again. False exactly where that queue holds its size; nothing
    /// changes then. It looks at the first one alone.
    pub fn put_back(&mut self, job: Waiting) -> bool
        ensures room { (result ≡ true) ↔ (length (jobs_of self.old job.immediate) < size_of self.old job.immediate) }
        ensures put_back { result ≡ true → self.new ≡ with_job_first job self.old }
        ensures full { result ≡ false → self.new ≡ self.old }
    {
        if job.immediate {
            self.immediate.put_back(job)
        } else {
            self.standard.put_back(job)
        }
    }

    /// The job that goes before all others; it stays. None exactly where both queues are empty. It looks at the first job
    /// of the immediate queue, or where that is empty of the standard queue; where that queue's jobs didn't come in the
    /// order in which they go, at each once.
    pub fn first(&self) -> Option<Waiting>
        ensures { result ≡ first_in self.now }
    {
        match self.immediate.first() {
            Some(first) => Some(first),
            None => self.standard.first(),
        }
    }

    /// Whether no job waits. It looks at no job.
    pub fn is_empty(&self) -> bool
        ensures { (result ≡ true) ↔ (length self.now.immediate + length self.now.standard ≡ 0) }
    {
        self.immediate.is_empty() && self.standard.is_empty()
    }

    /// Whether a job waits in the immediate queue. It looks at no job.
    pub fn has_immediate(&self) -> bool
        ensures { result ≡ not (length self.now.immediate == 0) }
    {
        !self.immediate.is_empty()
    }

    /// Takes the job that goes before all others. None exactly where both queues are empty. It looks at the first job of
    /// the immediate queue, or where that is empty of the standard queue, and moves no other. Where that queue's jobs
    /// didn't come in the order in which they go, it looks at each three times at most, and turns that queue once, which
    /// closes the gap, where the one that goes isn't the first that came.
    pub fn next(&mut self) -> Option<Waiting>
        ensures first { result ≡ first_in self.old }
        ensures taken { self.new ≡ without_first self.old }
    {
        if let Some(first) = self.immediate.next() {
            return Some(first);
        }
        self.standard.next()
    }

    /// Takes the job of a block. None exactly where neither queue has one. It looks at each job twice at most, and turns
    /// its queue once, which closes the gap, where the job isn't the first that came.
    pub fn remove(&mut self, block: u16) -> Option<Waiting>
        ensures found { result ≡ found_in block self.old }
        ensures taken { self.new ≡ without_block block self.old }
    {
        if let Some(job) = self.immediate.remove(block) {
            return Some(job);
        }
        self.standard.remove(block)
    }

    /// No job waits any more.
    pub fn clear(&mut self)
        ensures { self.new ≡ record self.old { immediate = []; standard = [] } }
    {
        self.immediate.clear();
        self.standard.clear();
    }

    /// How many jobs more the immediate or the standard queue has room for. It looks at no job.
    pub fn room(&self, immediate: bool) -> u16
        ensures { result ≡ size_of self.now immediate - length (jobs_of self.now immediate) }
    {
        let queue = if immediate {
            &self.immediate
        } else {
            &self.standard
        };
        queue.room() as u16
    }
}
