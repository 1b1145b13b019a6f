// One memory device of two.
ghost use Rattle.std.specs.Prelude.{◌≡◌};
ghost use Rattle.memif_pair.specs.Both.{ArePaired, IsBoth, first_both};

use crate::{calls, queries, turns};
use memif::{
    DeviceRefusal, DeviceTurn, JobResult, MemDevice, MemIf, MemStatus, PlainMark, StartFault,
};
use nv_base::{DeviceNumber, DeviceOp, Trace};
use std::marker::Model;

/// One memory device of two, which have no number in common (SWS Memory Abstraction Interface): a number that the second one has is
/// the second one's, any other the first one's. At most one of them has a job open; own work is the first one's. It takes no memory.
#[derive(Drop)]
pub struct Both<A: MemDevice, B: MemDevice> {
    first: A,
    second: B,
    // whether the second one had the last job
    last: bool,
    // of each operation, whether it was one of the second device
    course: Trace<bool>,
}

impl<A: MemDevice, B: MemDevice> Model for Both<A, B> {
    ghost use Rattle.memif_pair.specs.Both.{BothState, IsBoth};

    ghost Value = { BothState A B };

    ghost view = { λ s. record { first = s.first; second = s.second; last = s.last; course = s.course.items } };

    ghost invariant = { λ s. IsBoth (A.told s.first) (B.told s.second) s.last s.course.items };
}

impl<A: MemDevice, B: MemDevice> Both<A, B> {
    /// One device of two that asked for no operation yet. Its part 0 is the first one, its part 1 the second one.
    pub fn make(pair: MemIf<A, B>) -> Both<A, B>
        requires { ArePaired (A.told pair.first) (B.told pair.second) }
        ensures { result ≡ first_both pair.first pair.second }
    {
        let MemIf { first, second } = pair;
        Both {
            first,
            second,
            last: false,
            course: Trace::new(),
        }
    }

    /// Gives the two back as they are.
    pub fn into_pair(self) -> MemIf<A, B>
        ensures first { result.first ≡ self.first }
        ensures second { result.second ≡ self.second }
        ensures both { IsBoth (A.told result.first) (B.told result.second) self.last self.course }
    {
        let Both { first, second, .. } = self;
        MemIf::make(first, second)
    }
}

impl<A: MemDevice, B: MemDevice> MemDevice for Both<A, B> {
    ghost use Rattle.memif_pair.specs.Both.{told_as, clock_as};

    ghost told = { λ s. told_as A.told B.told s };

    ghost clock = { λ s. clock_as A.clock B.told B.clock s };

    fn start(&mut self) -> Result<(), StartFault> {
        calls::start(&mut self.first, &mut self.second)
    }

    fn start_read(&mut self, number: DeviceNumber, length: u16) -> Result<(), DeviceRefusal> {
        calls::start_read(
            &mut self.first,
            &mut self.second,
            &mut self.last,
            number,
            length,
        )
    }

    fn start_write(
        &mut self,
        number: DeviceNumber,
        content: &[u8],
        urgent: bool,
    ) -> Result<(), DeviceRefusal> {
        calls::start_write(
            &mut self.first,
            &mut self.second,
            &mut self.last,
            number,
            content,
            urgent,
        )
    }

    fn start_invalidate(&mut self, number: DeviceNumber) -> Result<(), DeviceRefusal> {
        calls::start_invalidate(&mut self.first, &mut self.second, &mut self.last, number)
    }

    fn start_erase(&mut self, number: DeviceNumber) -> Result<(), DeviceRefusal> {
        calls::start_erase(&mut self.first, &mut self.second, &mut self.last, number)
    }

    fn cancel(&mut self) {
        calls::cancel(&mut self.first, &mut self.second, self.last);
    }

    fn arm(&mut self, which: u8, nth: u32, keep: u32) {
        calls::arm(&mut self.first, &mut self.second, which, nth, keep);
    }

    fn turn(&mut self) -> DeviceTurn {
        turns::turn(&mut self.first, &mut self.second, &mut self.course)
    }

    fn take_data(&self) -> &[u8] {
        queries::take_data(&self.first, &self.second, self.last)
    }

    fn mark_kind(&self, number: DeviceNumber) -> Option<PlainMark> {
        queries::mark_kind(&self.first, &self.second, number)
    }

    fn status(&self) -> MemStatus {
        calls::status(&self.first, &self.second)
    }

    fn result(&self) -> JobResult {
        queries::result(&self.first, &self.second, self.last)
    }

    fn ops(&self) -> u64 {
        queries::ops(&self.first, &self.second)
    }

    fn faults(&self) -> u64 {
        queries::faults(&self.first, &self.second)
    }

    fn left(&self) -> u64 {
        queries::left(&self.first, &self.second)
    }

    fn most(&self, number: DeviceNumber, op: DeviceOp) -> u64 {
        queries::most(&self.first, &self.second, number, op)
    }
}
