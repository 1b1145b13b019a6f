// One queue, which knows whether its jobs go in the order in which they came.
ghost use Rattle.std.specs.Prelude.{◌≡◌, ◌-◌, ◌<◌, ◌↔◌, ◌==◌, [], ◌∷◌, ◌++◌, length, true, false, find, IfOk, IfSome, IsTrue, None};
ghost use Rattle.job_queues.specs.Order.{first_of};
ghost use Rattle.job_queues.specs.InOrder.{InOrder};
ghost use Rattle.job_queues.specs.Jobs.{without};

use crate::Waiting;
use crate::ring::{first_of, is_in_order, job_of, take_out};
use circular_buffer::HeapCircularBuffer;
use std::alloc::{AllocError, Global};
use std::marker::Model;

/// A ring of jobs, in the order in which they came. Where each goes before those behind it, the first that came is the
/// next one, and no other job is looked at. Contracts see the ring.
#[derive(Drop)]
pub struct Queue {
    ring: HeapCircularBuffer<Waiting>,
    in_order: bool,
}

impl Model for Queue {
    ghost use Rattle.std.specs.Prelude.{IsTrue};
    ghost use Rattle.circular_buffer.specs.Buffer.{Buffer};
    ghost use Rattle.job_queues.specs.declared.waiting.Waiting.{Waiting};
    ghost use Rattle.job_queues.specs.InOrder.{InOrder};

    ghost Value = { Buffer Waiting };

    ghost view = { λ q. q.ring };

    ghost invariant = { λ q. IsTrue q.in_order → InOrder q.ring.items };
}

impl Queue {
    /// An empty queue of this size. It takes all the memory that it ever needs.
    pub fn make(alloc: Global, size: u16) -> Result<Queue, AllocError>
        ensures { IfOk result (λ q. q ≡ record { items = []; capacity = size }) }
    {
        let ring = HeapCircularBuffer::with_capacity(alloc, usize::from(size))?;
        Ok(Queue {
            ring,
            in_order: true,
        })
    }

    /// Puts a job behind the others, if there is room. It looks at the last one alone.
    pub fn add(&mut self, job: Waiting) -> bool
        ensures room { (result ≡ true) ↔ (length self.old.items < self.old.capacity) }
        ensures added { result ≡ true → self.new ≡ record self.old { items = self.old.items ++ job ∷ [] } }
        ensures full { result ≡ false → self.new ≡ self.old }
    {
        let in_order = self.stays_in_order_behind(&job);
        let added = self.ring.try_push_back(job).is_ok();
        self.in_order = in_order;
        added
    }

    /// Puts a job before the others, if there is room. It looks at the first one alone.
    pub fn put_back(&mut self, job: Waiting) -> bool
        ensures room { (result ≡ true) ↔ (length self.old.items < self.old.capacity) }
        ensures put_back { result ≡ true → self.new ≡ record self.old { items = job ∷ self.old.items } }
        ensures full { result ≡ false → self.new ≡ self.old }
    {
        let in_order = self.stays_in_order_before(&job);
        let added = self.ring.try_push_front(job).is_ok();
        self.in_order = in_order;
        added
    }

    /// The job that goes before all others; it stays.
    pub fn first(&self) -> Option<Waiting>
        ensures { result ≡ first_of self.now.items }
    {
        if self.in_order {
            self.ring.front().copied()
        } else {
            first_of(&self.ring)
        }
    }

    /// Takes the job that goes before all others.
    pub fn next(&mut self) -> Option<Waiting>
        ensures first { result ≡ first_of self.old.items }
        ensures taken { IfSome result (λ w. self.new ≡ record self.old { items = without w.number self.old.items }) }
        ensures none { result ≡ None → self.new ≡ self.old }
    {
        if self.in_order {
            return self.ring.pop_front();
        }
        let first = first_of(&self.ring)?;
        take_out(&mut self.ring, first.number);
        self.in_order = is_in_order(&self.ring);
        Some(first)
    }

    /// Takes the job of a block.
    pub fn remove(&mut self, block: u16) -> Option<Waiting>
        ensures found { result ≡ find (λ w. w.block == block) self.old.items }
        ensures taken { IfSome result (λ w. self.new ≡ record self.old { items = without w.number self.old.items }) }
        ensures none { result ≡ None → self.new ≡ self.old }
    {
        let job = job_of(&self.ring, block)?;
        take_out(&mut self.ring, job.number);
        Some(job)
    }

    /// Whether no job waits.
    pub fn is_empty(&self) -> bool
        ensures { result ≡ (length self.now.items == 0) }
    {
        self.ring.is_empty()
    }

    /// How many jobs more there is room for.
    pub fn room(&self) -> usize
        ensures { result ≡ self.now.capacity - length self.now.items }
    {
        self.ring.capacity() - self.ring.len()
    }

    /// No job waits any more.
    pub fn clear(&mut self)
        ensures { self.new ≡ record self.old { items = [] } }
    {
        self.ring.clear();
        self.in_order = true;
    }

    // Whether the jobs are in order, and still so with this one behind them. It looks at the last one alone.
    fn stays_in_order_behind(&self, job: &Waiting) -> bool
        ensures others { IsTrue result → InOrder self.now.items }
        ensures all { IsTrue result → InOrder (self.now.items ++ job.now ∷ []) }
    {
        match self.ring.back() {
            Some(last) => self.in_order && last.leads(job),
            None => true,
        }
    }

    // The same with this one before them. It looks at the first one alone.
    fn stays_in_order_before(&self, job: &Waiting) -> bool
        ensures others { IsTrue result → InOrder self.now.items }
        ensures all { IsTrue result → InOrder (job.now ∷ self.now.items) }
    {
        match self.ring.front() {
            Some(first) => self.in_order && job.leads(first),
            None => true,
        }
    }
}
