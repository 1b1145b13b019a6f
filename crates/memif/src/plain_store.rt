// A device in memory.
ghost use Rattle.std.specs.Prelude.{◌≡◌, ◌≢◌, [], IfOk, Ok, MatchResult, Some, None, false, length, slice_index_or};
ghost use Rattle.memif.specs.Told.{DeviceTold, is_open};
ghost use Rattle.memif.specs.Calls.{Accepts, refusal_of, StartsUp, Turns, InOrder};
ghost use Rattle.memif.specs.PlainInside.{mark_of};
ghost use Rattle.memif.specs.Plain.{plain_store, no_clock, IsPlainTurn};
ghost use Rattle.nv_base.specs.Lengths.{place_of};

use crate::kept::{Kept, leave_no_doubt, mark, room_for, settle, stage};
use crate::{DeviceRefusal, DeviceTurn, JobResult, MemDevice, MemStatus, PlainMark, StartFault};
use nv_base::{DeviceNumber, DeviceOp, Lengths, Trace, lengths_of};
use std::alloc::{AllocError, Global};
use std::marker::Model;

/// The open job: of a number at a place, a read, or else a mark that was taken there.
#[derive(Clone, Copy)]
struct PlainJob {
    number: DeviceNumber,
    place: usize,
    reads: bool,
    urgent: bool,
}

impl PlainJob {
    // A mark was taken, and isn't urgent.
    fn of(number: DeviceNumber, place: usize) -> PlainJob
        ensures { result ≡ record { number = number; place = place; reads = false; urgent = false } }
    {
        PlainJob {
            number,
            place,
            reads: false,
            urgent: false,
        }
    }
}

/// A device in memory: the plain program of the contract. It tells its marks, each operation takes one turn, and it has
/// no fault and no power cut. Contracts see what is told of it.
#[derive(Drop)]
pub struct PlainStore {
    numbers: Lengths,
    kept: Vec<Kept>,
    started: bool,
    starts: Trace<()>,
    job: Option<PlainJob>,
    last: JobResult,
    given: Option<usize>,
}

impl Model for PlainStore {
    ghost use Rattle.memif.specs.Told.{DeviceTold};

    ghost Value = { DeviceTold };

    ghost use Rattle.memif.specs.PlainInside.{told_of, IsSound};

    ghost view = { told_of };

    ghost invariant = { IsSound };
}

impl PlainStore {
    /// A device of these numbers, each erased, that isn't started. It takes all the memory that it ever needs.
    pub fn make(alloc: Global, numbers: &Lengths) -> Result<PlainStore, AllocError>
        ensures { IfOk result (λ p. p ≡ plain_store numbers.now) }
    {
        let numbers = lengths_of(alloc, numbers.as_slice())?;
        let kept = room_for(alloc, numbers.as_slice())?;
        Ok(PlainStore {
            numbers,
            kept,
            started: false,
            starts: Trace::new(),
            job: None,
            last: JobResult::JobOk,
            given: None,
        })
    }

    /// A device without numbers, that isn't started: the second of two devices where there is but one.
    pub fn without_numbers(alloc: Global) -> PlainStore
        ensures { result ≡ plain_store [] }
    {
        PlainStore {
            numbers: Lengths::new(alloc),
            kept: Vec::new(alloc),
            started: false,
            starts: Trace::new(),
            job: None,
            last: JobResult::JobOk,
            given: None,
        }
    }

    // The place of a number that a job may be taken for.
    #[tactic(auto, using(crate::proofs::PlainCalls::in_order))]
    fn check(&self, number: DeviceNumber, length: Option<usize>) -> Result<usize, DeviceRefusal>
        ensures refusal { MatchResult result (λ place. refusal_of self.now number.0 length ≡ None) (λ r. refusal_of self.now number.0 length ≡ Some r) }
        ensures place { IfOk result (λ place. place_of self.now.fixed.numbers number.0 ≡ Some place) }
        ensures order { InOrder self.now no_clock }
    {
        if self.job.is_some() {
            return Err(DeviceRefusal::Busy);
        }
        if !self.started {
            return Err(DeviceRefusal::Uninit);
        }
        let Some(place) = self.numbers.place_of(number) else {
            return Err(DeviceRefusal::BadNumber);
        };
        match length {
            Some(length) if length != usize::from(self.numbers.as_slice()[place].1) => {
                Err(DeviceRefusal::BadLength)
            }
            _ => Ok(place),
        }
    }

    // Takes a mark without content.
    fn take_mark(&mut self, number: DeviceNumber, kind: PlainMark) -> Result<(), DeviceRefusal>
        requires { kind ≢ PlainMark.Content }
        ensures { Accepts (record { job = record { number = number.0; mark = Some (mark_of (record { kind = kind; content = [] })); urgent = false }; length = None }) result self.old no_clock self.new no_clock }
    {
        let place = self.check(number, None)?;
        mark(&mut self.kept, place, kind);
        self.job = Some(PlainJob::of(number, place));
        self.given = None;
        Ok(())
    }
}

impl MemDevice for PlainStore {
    ghost told = { λ p. p };

    ghost clock = { λ p. no_clock };

    #[tactic(auto, using(crate::proofs::Plain::room_map))]
    fn start(&mut self) -> Result<(), StartFault>
        ensures start { StartsUp result self.old no_clock self.new no_clock }
        ensures ok { (u : _) × (result ≡ Ok u) }
        ensures no_fault { self.new.first ≡ self.old.first }
        ensures rests { is_open self.new.stand ≡ false }
    {
        leave_no_doubt(&mut self.kept);
        self.started = true;
        self.starts = self.starts.with(&());
        self.job = None;
        self.last = JobResult::JobOk;
        self.given = None;
        Ok(())
    }

    fn start_read(&mut self, number: DeviceNumber, length: u16) -> Result<(), DeviceRefusal> {
        let place = self.check(number, Some(usize::from(length)))?;
        self.job = Some(PlainJob {
            reads: true,
            ..PlainJob::of(number, place)
        });
        self.given = None;
        Ok(())
    }

    fn start_write(
        &mut self,
        number: DeviceNumber,
        content: &[u8],
        urgent: bool,
    ) -> Result<(), DeviceRefusal> {
        let place = self.check(number, Some(content.len()))?;
        stage(&mut self.kept, place, content);
        self.job = Some(PlainJob {
            urgent,
            ..PlainJob::of(number, place)
        });
        self.given = None;
        Ok(())
    }

    fn start_invalidate(&mut self, number: DeviceNumber) -> Result<(), DeviceRefusal> {
        self.take_mark(number, PlainMark::Invalid)
    }

    fn start_erase(&mut self, number: DeviceNumber) -> Result<(), DeviceRefusal> {
        self.take_mark(number, PlainMark::Erased)
    }

    fn cancel(&mut self) {
        if self.job.take().is_some() {
            self.last = JobResult::JobCanceled;
        }
    }

    fn arm(&mut self, which: u8, nth: u32, keep: u32) {
        let _started = self.started;
    }

    fn turn(&mut self) -> DeviceTurn
        ensures turn { Turns result self.old no_clock self.new no_clock }
        ensures plain { IsPlainTurn result self.old self.new }
    {
        let Some(job) = self.job else {
            return DeviceTurn::Idle;
        };
        self.job = None;
        if !job.reads {
            settle(&mut self.kept, job.place);
            self.last = JobResult::JobOk;
            return DeviceTurn::Worked;
        }
        match self.kept[job.place].settled.kind {
            PlainMark::Content => {
                self.given = Some(job.place);
                self.last = JobResult::JobOk;
            }
            PlainMark::Invalid => self.last = JobResult::BlockInvalid,
            PlainMark::Erased => self.last = JobResult::BlockInconsistent,
        }
        DeviceTurn::Worked
    }

    fn take_data(&self) -> &[u8] {
        match self.given {
            Some(place) => self.kept[place].settled.content.as_slice(),
            None => &[],
        }
    }

    fn mark_kind(&self, number: DeviceNumber) -> Option<PlainMark> {
        match self.numbers.place_of(number) {
            Some(place) => Some(self.kept[place].settled.kind),
            None => None,
        }
    }

    #[tactic(auto, using(crate::proofs::PlainCalls::in_order))]
    fn status(&self) -> MemStatus {
        if !self.started {
            MemStatus::Uninit
        } else if self.job.is_some() {
            MemStatus::Busy
        } else {
            MemStatus::Idle
        }
    }

    fn result(&self) -> JobResult {
        if self.job.is_some() {
            JobResult::JobPending
        } else {
            self.last
        }
    }

    fn ops(&self) -> u64 {
        let _started = self.started;
        0
    }

    fn faults(&self) -> u64 {
        let _started = self.started;
        0
    }

    fn left(&self) -> u64 {
        u64::from(self.job.is_some())
    }

    fn most(&self, number: DeviceNumber, op: DeviceOp) -> u64 {
        let _started = self.started;
        1
    }
}
