// What a device shows.
ghost use Rattle.std.specs.Prelude.{◌≡◌, Some, true, IfSome};
ghost use Rattle.memif.specs.Told.{status_of, result_of, ops_of, faults_of, given_by, is_open, length_of, most_of, figures_at, slot_at, IsConfigured};
ghost use Rattle.memif.specs.Calls.{FreesReady, InOrder, IsKind, RoomIsLeft, kind_of};
ghost use Rattle.fee_core.specs.Whole.{Sound, told_in, clock_in};

use crate::Origin;
use crate::parts::FeeParts;
use crate::room::{pages_of_op, record_turns, switch_turns};
use fee_course::most_turns;
use fee_image::Place;
use fee_laws::Phase;
use fls_model::Flash;
use memif::{JobResult, MemStatus, PlainMark};
use nv_base::{DeviceNumber, DeviceOp};

impl<F: Flash, O: Origin> FeeParts<F, O> {
    /// What the device is at.
    pub fn status(&self) -> MemStatus
        requires { Sound O.making O.entry self.now }
        ensures status { result ≡ status_of (told_in O.making O.entry self.now) }
        ensures order { InOrder (told_in O.making O.entry self.now) (clock_in O.making O.entry self.now) }
        ensures ready { FreesReady (told_in O.making O.entry self.now) (clock_in O.making O.entry self.now) }
        ensures room { RoomIsLeft (told_in O.making O.entry self.now) (clock_in O.making O.entry self.now) }
    {
        let _active = self.banks.active();
        if !self.started {
            MemStatus::Uninit
        } else if self.job.is_some() {
            MemStatus::Busy
        } else if self.banks.phase() != Phase::None {
            MemStatus::BusyInternal
        } else {
            MemStatus::Idle
        }
    }

    /// What the last job came to, `JobPending` exactly while one is open.
    pub fn result(&self) -> JobResult
        requires { Sound O.making O.entry self.now }
        ensures result { result ≡ result_of (told_in O.making O.entry self.now).stand }
        ensures pending { result ≡ JobResult.JobPending → is_open (told_in O.making O.entry self.now).stand ≡ true }
    {
        if self.job.is_some() {
            JobResult::JobPending
        } else {
            self.last
        }
    }

    /// The changing operations that it asked for so far.
    pub fn ops(&self) -> u64
        requires { Sound O.making O.entry self.now }
        ensures { result ≡ ops_of (told_in O.making O.entry self.now) }
    {
        self.ops
    }

    /// The flash calls that failed so far.
    pub fn faults(&self) -> u64
        requires { Sound O.making O.entry self.now }
        ensures { result ≡ faults_of (told_in O.making O.entry self.now) }
    {
        self.faults
    }

    /// Lends the content that the last job read, none where it was no read or gave none.
    pub fn take_data(&self) -> &[u8]
        requires { Sound O.making O.entry self.now }
        ensures { result.now ≡ given_by (told_in O.making O.entry self.now).stand }
    {
        if self.job.is_some() {
            return &[];
        }
        self.content.front(self.given)
    }

    // The length of a number that is configured.
    fn length_of(&self, number: DeviceNumber) -> u16
        requires sound { Sound O.making O.entry self.now }
        requires configured { IsConfigured (told_in O.making O.entry self.now) number.0 }
        ensures { length_of O.making.numbers number.0 ≡ Some result }
    {
        match self.numbers.place_of(number) {
            Some(place) => self.numbers.as_slice()[place].1,
            None => 0,
        }
    }

    // What a number holds, without its content: Erased before the device is started.
    fn kind(&self, number: DeviceNumber) -> PlainMark
        requires { Sound O.making O.entry self.now }
        ensures { IfSome (told_in O.making O.entry self.now).slots (λ slots. self.now.parts.started ≡ true → result ≡ kind_of (slot_at O.making.numbers slots number.0).settled.mark) }
    {
        let _started = self.started;
        let Some(log) = self.banks.log() else {
            return PlainMark::Erased;
        };
        match log.find(number) {
            Place::Content { .. } => PlainMark::Content,
            Place::Invalid { count: _ } => PlainMark::Invalid,
            Place::Erased { count: _ } | Place::Unwritten => PlainMark::Erased,
        }
    }

    /// What a number holds, without its content. None exactly where the number isn't configured.
    pub fn mark_kind(&self, number: DeviceNumber) -> Option<PlainMark>
        requires { Sound O.making O.entry self.now }
        ensures { IsKind (told_in O.making O.entry self.now) number.0 result }
    {
        match self.numbers.place_of(number) {
            Some(_) => Some(self.kind(number)),
            None => None,
        }
    }

    /// By how much a start of an operation on a number raises `left` at most.
    pub fn most(&self, number: DeviceNumber, op: DeviceOp) -> u64
        requires sound { Sound O.making O.entry self.now }
        requires configured { IsConfigured (told_in O.making O.entry self.now) number.0 }
        ensures { result ≡ most_of (figures_at (told_in O.making O.entry self.now).fixed number.0) op }
    {
        let length = self.length_of(number);
        let geometry = self.banks.geometry();
        match op {
            DeviceOp::Read => 1,
            _ => {
                let switch = most_turns(geometry.page, self.banks.bank_sectors(), &self.numbers);
                u64::from(pages_of_op(geometry.page, op, length)) + 1 + switch
            }
        }
    }

    /// The turns that the open work takes at most, where no fault comes.
    pub fn left(&self) -> u64
        requires { Sound O.making O.entry self.now }
        ensures { result ≡ (told_in O.making O.entry self.now).left }
    {
        let Some(job) = self.job else {
            return self.banks.left();
        };
        let switch = switch_turns(&self.banks, job, self.reserve);
        match job.op {
            DeviceOp::Read => 1 + switch,
            _ => record_turns(&self.banks, job) + switch,
        }
    }
}
