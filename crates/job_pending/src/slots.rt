// The jobs by block.
ghost use Rattle.std.specs.Prelude.{◌≡◌, ◌≤◌, ◌<◌, ◌+◌, ◌++◌, ◌∷◌, [], length, slice_get, is_some, option_copied, vec_capacity, IfOk, MatchOption, Some, None};
ghost use Rattle.block_machine.specs.Blocks.{job_block};
ghost use Rattle.job_pending.specs.Slots.{AreIndexed, IsLeft, IsSwapped, slot};

use crate::Job;
use std::alloc::{AllocError, Global};
use std::marker::Model;

/// The jobs that wait, one of a block at most, and for each id from 0 on where its job stands, if it has one. Contracts see
/// the jobs, how many ids there are, and how many jobs have room.
#[derive(Drop)]
pub struct Slots {
    at: Vec<u16>,
    jobs: Vec<Job>,
    room: u16,
}

impl Model for Slots {
    ghost use Rattle.std.specs.Prelude.{◌≤◌, length, vec_capacity};
    ghost use Rattle.job_pending.specs.Slots.{AreIndexed, SlotsState};

    ghost Value = { SlotsState };

    ghost view = { λ s. record { jobs = s.jobs.items; places = length s.at.items; room = s.room } };

    ghost invariant = { λ s. AreIndexed s.at.items s.jobs.items × (length s.jobs.items ≤ s.room) × (s.room ≤ vec_capacity s.jobs) };
}

impl Slots {
    /// No job on any of so many blocks, and room for so many jobs at once. It takes all the memory that is ever needed.
    pub fn make(alloc: Global, places: u16, room: u16) -> Result<Slots, AllocError>
        ensures { IfOk result (λ s. s ≡ record { jobs = []; places = places; room = room }) }
    {
        let jobs = Vec::with_capacity(alloc, usize::from(room))?;
        Ok(Slots {
            at: vec![in alloc; 0u16; usize::from(places)]?,
            jobs,
            room,
        })
    }

    /// No job is on any block any more.
    pub fn clear(&mut self)
        ensures { self.new ≡ record self.old { jobs = [] } }
    {
        self.jobs.clear();
    }

    /// The job of a block, if it has one.
    pub fn job(&self, block: u16) -> Option<&Job>
        ensures { option_copied result ≡ slot self.now block }
    {
        let place = self.place_of(block)?;
        self.jobs.get(place)
    }

    // Whether a block has a job.
    fn has(&self, block: u16) -> bool
        ensures { result ≡ is_some (slot self.now block) }
    {
        self.job(block).is_some()
    }

    // Where the job of a block stands, if it has one.
    fn place_of(&self, block: u16) -> Option<usize>
        ensures { MatchOption result (slot self.now block ≡ None) (λ i. (i < length self.now.jobs) × (slice_get self.now.jobs i ≡ slot self.now block)) }
    {
        let Some(at) = self.at.get(usize::from(block)) else {
            return None;
        };
        let place = usize::from(*at);
        let Some(job) = self.jobs.get(place) else {
            return None;
        };
        if job.block() == block {
            Some(place)
        } else {
            None
        }
    }

    /// Puts a job to its block. It does nothing where the block has one, or no place, or no job more has room.
    pub fn put(&mut self, job: Job)
        ensures put { slot self.old (job_block job) ≡ None → job_block job < self.old.places → length self.old.jobs < self.old.room
            → self.new ≡ record self.old { jobs = self.old.jobs ++ job ∷ [] } }
        ensures places { self.new.places ≡ self.old.places }
    {
        let block = job.block();
        let place = self.jobs.len();
        if self.has(block)
            || usize::from(block) >= self.at.len()
            || place >= usize::from(self.room)
        {
            return;
        }
        self.at[usize::from(block)] = place as u16;
        self.jobs.push_reserved(job);
    }

    /// Takes the job of a block, if it has one. The last job moves to where it stood.
    pub fn take(&mut self, block: u16) -> Option<Job>
        ensures value { result ≡ slot self.old block }
        ensures left { IsLeft block self.old self.new }
    {
        let place = self.place_of(block)?;
        Some(take_at(&mut self.at, &mut self.jobs, place))
    }
}

// Takes out the job at a place, where the last one stands then.
fn take_at(at: &mut Vec<u16>, jobs: &mut Vec<Job>, place: usize) -> Job
    requires below { place < length jobs.old.items }
    requires few { length jobs.old.items ≤ 65535 }
    requires indexed { AreIndexed at.old.items jobs.old.items }
    ensures value { slice_get jobs.old.items place ≡ Some result }
    ensures swapped { IsSwapped place jobs.old.items jobs.new.items }
    ensures places { length at.new.items ≡ length at.old.items }
    ensures indexed { AreIndexed at.new.items jobs.new.items }
    ensures capacity { vec_capacity jobs.new ≡ vec_capacity jobs.old }
{
    let job = jobs.swap_remove(place);
    if place < jobs.len() {
        let moved = usize::from(jobs[place].block());
        at[moved] = place as u16;
    }
    job
}
