// What a device shows.
ghost use Rattle.std.specs.Prelude.{◌≡◌, ◌<◌, true, length, None, Some, IfSome, MatchOption};
ghost use Rattle.memif.specs.Told.{status_of, result_of, given_by, is_open, length_of, most_of, figures_at, IsConfigured};
ghost use Rattle.memif.specs.Calls.{IsKind};
ghost use Rattle.ea_told.specs.Device.{told_of, state_at, fixed_for, figures_for};
ghost use Rattle.ea_told.specs.Inside.{IsSound};
ghost use Rattle.ea_told.specs.Making.{entry_of};
ghost use Rattle.ea_slots.specs.Shown.{settled_mark};

use crate::Origin;
use crate::parts::EaParts;
use crate::steps::body_pages;
use ea_image::steps_left;
use fee_format::RecordKind;
use fls_model::Flash;
use memif::{JobResult, MemStatus, PlainMark};
use nv_base::{DeviceNumber, DeviceOp};

impl<F: Flash, O: Origin> EaParts<F, O> {
    /// What the device is at.
    pub fn status(&self) -> MemStatus
        requires { IsSound O.making O.entry self.now }
        ensures { result ≡ status_of (told_of O.making O.entry self.now) }
    {
        if !self.started {
            MemStatus::Uninit
        } else if self.job.is_some() {
            MemStatus::Busy
        } else {
            MemStatus::Idle
        }
    }

    /// What the last job came to, `JobPending` exactly while one is open.
    pub fn result(&self) -> JobResult
        requires { IsSound O.making O.entry self.now }
        ensures result { result ≡ result_of (told_of O.making O.entry self.now).stand }
        ensures pending { result ≡ JobResult.JobPending → is_open (told_of O.making O.entry self.now).stand ≡ true }
    {
        if self.job.is_some() {
            JobResult::JobPending
        } else {
            self.last
        }
    }

    /// Lends the content that the last job read, none where it was no read or gave none.
    pub fn take_data(&self) -> &[u8]
        requires { IsSound O.making O.entry self.now }
        ensures { result.now ≡ given_by (told_of O.making O.entry self.now).stand }
    {
        if self.job.is_some() {
            return &[];
        }
        self.content.front(self.given)
    }

    /// The place of a number, with its length. None exactly where the number isn't configured.
    pub(crate) fn find(&self, number: DeviceNumber) -> Option<(u32, u16)>
        requires { IsSound O.making O.entry self.now }
        ensures found { MatchOption result (length_of O.making.numbers number.0 ≡ None) (λ r. entry_of O.making number.0 ≡ Some (r.0, (number, r.1))) }
        ensures length { IfSome result (λ r. length_of O.making.numbers number.0 ≡ Some r.1) }
        ensures place { IfSome result (λ r. r.0 < length self.now.states) }
    {
        match self.numbers.place_of(number) {
            Some(place) => Some((place as u32, self.numbers.as_slice()[place].1)),
            None => None,
        }
    }

    // What the number at a place holds, without its content.
    fn kind(&self, place: u32) -> PlainMark
        requires { place < length self.now.states }
        ensures { result ≡ settled_mark (state_at self.now.states place).memory.settled }
    {
        match self.states.at(place).memory.settled {
            None => PlainMark::Erased,
            Some(head) => match head.kind {
                RecordKind::Content => PlainMark::Content,
                RecordKind::Invalid => PlainMark::Invalid,
                RecordKind::Erased => PlainMark::Erased,
            },
        }
    }

    /// What a number holds, without its content. None exactly where the number isn't configured.
    pub fn mark_kind(&self, number: DeviceNumber) -> Option<PlainMark>
        requires { IsSound O.making O.entry self.now }
        ensures { IsKind (told_of O.making O.entry self.now) number.0 result }
    {
        match self.find(number) {
            Some(found) => Some(self.kind(found.0)),
            None => None,
        }
    }

    // The length of a number that is configured.
    fn length_of(&self, number: DeviceNumber) -> u16
        requires sound { IsSound O.making O.entry self.now }
        requires configured { IsConfigured (told_of O.making O.entry self.now) number.0 }
        ensures { figures_at (fixed_for O.making) number.0 ≡ figures_for O.making.geometry.page result }
    {
        match self.find(number) {
            Some(found) => found.1,
            None => 0,
        }
    }

    /// By how much a start of an operation on a number raises `left` at most.
    pub fn most(&self, number: DeviceNumber, op: DeviceOp) -> u64
        requires sound { IsSound O.making O.entry self.now }
        requires configured { IsConfigured (told_of O.making O.entry self.now) number.0 }
        ensures { result ≡ most_of (figures_at (told_of O.making O.entry self.now).fixed number.0) op }
    {
        let length = self.length_of(number);
        match op {
            DeviceOp::Read => 1,
            _ => u64::from(body_pages(length, self.geometry.page)) + 4,
        }
    }

    /// The turns that the open job takes at most, where no fault comes.
    pub fn left(&self) -> u64
        requires { IsSound O.making O.entry self.now }
        ensures { result ≡ (told_of O.making O.entry self.now).left }
    {
        let Some(job) = self.job else {
            return 0;
        };
        match job.op {
            DeviceOp::Read => 1,
            _ if !self.is_writable(job.place) => 1,
            _ => u64::from(steps_left(body_pages(job.length, self.geometry.page), job.step)),
        }
    }
}
