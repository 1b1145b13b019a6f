// The pending jobs.
ghost use Rattle.std.specs.Option.{option_map_or};
ghost use Rattle.std.specs.Prelude.{◌≡◌, ◌<◌, ◌≤◌, ◌+◌, ◌-◌, ◌^◌, ◌++◌, ◌∷◌, [], ℕ, List, Option, Some, None, false, length, is_some, option_copied, ◌↔◌, IsTrue, IfOk, IfSome, Bool, if◌then◌else◌};
ghost use Rattle.block_machine.specs.Words.{Configuration};
ghost use Rattle.block_machine.specs.State.{Job as MachineJob};
ghost use Rattle.block_machine.specs.Blocks.{job_block, rank_of};
ghost use Rattle.block_machine.specs.Next.{next_in};
ghost use Rattle.block_machine.specs.Steps.{without_job, picked_job, interrupted};
ghost use Rattle.block_machine.specs.Reply.{is_queue_full};
ghost use Rattle.block_machine.specs.Legal.{HandIsFree, MayInterrupt};
ghost use Rattle.job_pending.specs.Take.{taken_with};
ghost use Rattle.job_pending.specs.Slots.{slot};
ghost use Rattle.job_pending.specs.Unpicked.{unpicked_in};
ghost use Rattle.job_pending.specs.Pending.{Agree, IsNew, IsTakenOut, most_of, reserved_in};

use crate::interrupt::may_interrupt;
use crate::room::room_for;
use crate::slots::Slots;
use crate::unpicked::Unpicked;
use crate::waiting::{is_immediate, waiting_of};
use crate::{Job, Take};
use block_machine::block_config::Config;
use block_machine::nv_base::Bytes;
use job_queues::Queues;
use std::alloc::{AllocError, Global};
use std::marker::Model;

/// The jobs that are pending: those that wait, each at its block, and the one in hand. `Agree` says of which jobs of the
/// machine they are. Contracts see what is kept.
#[derive(Drop)]
pub struct PendingJobs {
    slots: Slots,
    hand: Option<Job>,
    queues: Queues,
    unpicked: Unpicked,
    reserved: u32,
}

impl Model for PendingJobs {
    ghost use Rattle.job_pending.specs.Pending.{Pending};

    ghost Value = { Pending };

    ghost view = { λ p. record { slots = p.slots; hand = p.hand; queues = p.queues; unpicked = p.unpicked; reserved = p.reserved } };
}

impl PendingJobs {
    /// No job is pending. It takes all the memory that is ever needed for the jobs of a configuration: for one on each block, or where
    /// these are fewer for as many as the queues take, and one of each priority, which was interrupted.
    pub fn make(alloc: Global, config: &Config) -> Result<PendingJobs, AllocError>
        ensures places { IfOk result (λ p. p.slots.places ≡ length config.now.blocks + 1) }
        ensures agrees { IfOk result (λ p. Agree config.now p [] None) }
    {
        let ids = config.blocks() + 1;
        let room = room_for(config, ids);
        let slots = Slots::make(alloc, ids, room.all)?;
        let queues = Queues::make(alloc, room.standard, room.immediate)?;
        Ok(PendingJobs {
            slots,
            hand: None,
            queues,
            unpicked: Unpicked {
                standard: 0,
                immediate: 0,
            },
            reserved: 0,
        })
    }

    /// The job in hand.
    pub fn hand(&self) -> Option<&Job>
        ensures { option_copied result ≡ self.now.hand }
    {
        self.hand.as_ref()
    }

    /// The job that goes before all others that wait. It looks at each of its queue once.
    pub fn next(&self) -> Option<&Job>
        ensures { (c : Configuration) (waiting : List MachineJob) (held : Option MachineJob) → Agree c self.now waiting held → option_copied result ≡ next_in c waiting }
    {
        if self.queues.is_empty() {
            return None;
        }
        self.first_waiting()
    }

    // The same where a job waits. It stays out of line, since in most turns none does.
    #[inline(never)]
    fn first_waiting(&self) -> Option<&Job>
        ensures { (c : Configuration) (waiting : List MachineJob) (held : Option MachineJob) → Agree c self.now waiting held → option_copied result ≡ next_in c waiting }
    {
        let first = self.queues.first()?;
        self.slots.job(first.block)
    }

    /// Whether the job that goes before all others that wait is an immediate one. It looks at no job.
    pub fn next_is_immediate(&self) -> bool
        ensures { (c : Configuration) (waiting : List MachineJob) (held : Option MachineJob) → Agree c self.now waiting held → result ≡ option_map_or (λ j. (rank_of c j).immediate) (next_in c waiting) false }
    {
        self.queues.has_immediate()
    }

    /// Whether as many jobs as the immediate or the standard queue has room for were accepted and not yet picked.
    pub fn is_full(&self, config: &Config, immediate: bool) -> bool
        ensures { (waiting : List MachineJob) (held : Option MachineJob) → Agree config.now self.now waiting held → result ≡ is_queue_full config.now waiting immediate }
    {
        let (standard_size, immediate_size) = config.queue_sizes();
        if immediate {
            immediate_size <= self.unpicked.immediate
        } else {
            standard_size <= self.unpicked.standard
        }
    }

    /// Whether the job in hand may be interrupted by the next one.
    pub fn may_interrupt(&self, config: &Config) -> bool
        ensures { (waiting : List MachineJob) (h j : MachineJob) → Agree config.now self.now waiting (Some h) → next_in config.now waiting ≡ Some j → (IsTrue result ↔ MayInterrupt config.now h j) }
    {
        let Some(held) = self.hand() else {
            return false;
        };
        let Some(next) = self.next() else {
            return false;
        };
        may_interrupt(config, held, next)
    }

    /// The entries that are reserved for all jobs.
    pub fn reserved(&self) -> u64
        ensures value { result ≡ reserved_in self.now }
        ensures few { result < 2 ^ 33 }
    {
        match &self.hand {
            Some(job) => u64::from(job.reserved()) + u64::from(self.reserved),
            None => u64::from(self.reserved),
        }
    }

    /// A job begins to be pending.
    pub fn accept(&mut self, config: &Config, job: Job)
        requires known { job_block job < self.old.slots.places }
        requires room { unpicked_in (rank_of config.now job).immediate self.old.unpicked < most_of config.now (rank_of config.now job).immediate }
        requires reserved { self.old.reserved + job.reserved < 2 ^ 32 }
        ensures places { self.new.slots.places ≡ self.old.slots.places }
        ensures agrees { (waiting : List MachineJob) (held : Option MachineJob) → Agree config.now self.old waiting held → IsNew job waiting held → job.taken ≡ None → Agree config.now self.new (waiting ++ job ∷ []) held }
    {
        let _sizes = config.queue_sizes();
        let waiting = waiting_of(config, &job);
        let _added = self.queues.add(waiting);
        self.unpicked.accept(waiting.immediate);
        self.reserved += job.reserved();
        self.slots.put(job);
    }

    /// The next job comes in hand with what its Pick takes, and the copy of that, if one was made. One that is in hand is
    /// interrupted: it waits again, and gets two of its entries. It does nothing where no job waits.
    pub fn pick(&mut self, config: &Config, take: Take, copy: Option<Bytes>)
        requires reserved { IfSome self.old.hand (λ h. self.old.reserved + h.reserved + 2 < 2 ^ 32) }
        ensures places { self.new.slots.places ≡ self.old.slots.places }
        ensures agrees { (waiting : List MachineJob) (held : Option MachineJob) (j : MachineJob) → Agree config.now self.old waiting held → next_in config.now waiting ≡ Some j → HandIsFree config.now held j
            → Agree config.now self.new (interrupted held (without_job j.number waiting)) (Some (picked_job (taken_with j.content (take, copy)) (if is_some held then 2 else 0) j)) }
    {
        let Some(mut job) = self.take_out() else {
            return;
        };
        let handed_on = self.put_back(config);
        job.pick(take, copy, handed_on);
        self.hold(job);
    }

    /// A member of a request on all blocks comes in hand with what its Pick takes, where no job is pending.
    pub fn pick_member(&mut self, job: Job, take: Take, copy: Option<Bytes>)
        requires { job_block job < self.old.slots.places }
        ensures places { self.new.slots.places ≡ self.old.slots.places }
        ensures agrees { (c : Configuration) → Agree c self.old [] None → Agree c self.new [] (Some (picked_job (taken_with job.content (take, copy)) 0 job)) }
    {
        let mut job = job;
        job.pick(take, copy, 0);
        self.hold(job);
    }

    /// The job in hand wrote one of its instances.
    pub fn wrote(&mut self, index: u8)
        requires { IfSome self.old.hand (λ h. length h.written < 2) }
        ensures places { self.new.slots.places ≡ self.old.slots.places }
        ensures agrees { (c : Configuration) (waiting : List MachineJob) (h : MachineJob) → Agree c self.old waiting (Some h) → Agree c self.new waiting (Some (record h { reserved = h.reserved - 1; written = h.written ++ index ∷ [] })) }
    {
        let Some(job) = &mut self.hand else {
            return;
        };
        job.wrote(index);
    }

    /// The job in hand ends.
    pub fn end(&mut self) -> Option<Job>
        ensures job { result ≡ self.old.hand }
        ensures places { self.new.slots.places ≡ self.old.slots.places }
        ensures agrees { (c : Configuration) (waiting : List MachineJob) (held : Option MachineJob) → Agree c self.old waiting held → Agree c self.new waiting None }
    {
        self.hand.take()
    }

    // The next job doesn't wait any more.
    fn take_out(&mut self) -> Option<Job>
        ensures places { self.new.slots.places ≡ self.old.slots.places }
        ensures hand { self.new.hand ≡ self.old.hand }
        ensures reserved { self.new.reserved ≤ self.old.reserved }
        ensures agrees { (c : Configuration) (waiting : List MachineJob) (held : Option MachineJob) (j : MachineJob) → Agree c self.old waiting held → next_in c waiting ≡ Some j → IsTakenOut c self.old self.new waiting held j result }
    {
        let first = self.queues.next()?;
        let job = self.slots.take(first.block)?;
        self.unpicked.pick(first.immediate, job.was_picked());
        self.reserved = self.reserved.saturating_sub(job.reserved());
        Some(job)
    }

    // A job in hand waits again, with two entries more. Answers how many it got.
    fn put_back(&mut self, config: &Config) -> u32
        requires reserved { IfSome self.old.hand (λ h. self.old.reserved + h.reserved + 2 < 2 ^ 32) }
        ensures places { self.new.slots.places ≡ self.old.slots.places }
        ensures more { result ≡ (if is_some self.old.hand then 2 else 0) }
        ensures agrees { (waiting : List MachineJob) (held : Option MachineJob) → Agree config.now self.old waiting held → IfSome held (λ h. (rank_of config.now h).immediate ≡ false) → Agree config.now self.new (interrupted held waiting) None }
    {
        let Some(mut job) = self.hand.take() else {
            return 0;
        };
        let waiting = waiting_of(config, &job);
        let _added = self.queues.put_back(waiting);
        job.wait_again();
        self.reserved += job.reserved();
        self.slots.put(job);
        2
    }

    // A job comes in hand.
    fn hold(&mut self, job: Job)
        ensures { self.new ≡ record self.old { hand = Some job } }
    {
        self.hand = Some(job);
    }

    /// The power went off and on again: no job is pending any more.
    pub fn clear(&mut self)
        ensures places { self.new.slots.places ≡ self.old.slots.places }
        ensures agrees { (c : Configuration) (waiting : List MachineJob) (held : Option MachineJob) → Agree c self.old waiting held → Agree c self.new [] None }
    {
        self.slots.clear();
        self.queues.clear();
        self.hand = None;
        self.unpicked = Unpicked {
            standard: 0,
            immediate: 0,
        };
        self.reserved = 0;
    }
}
