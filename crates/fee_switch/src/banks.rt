// The banks of a flash.
ghost use Rattle.std.specs.Prelude.{◌≡◌, ◌<◌, ◌≤◌, true, false, None, Some, IsSome, IfOk, MatchOption, option_map, is_some, length};
ghost use Rattle.std.specs.List.{All};
ghost use Rattle.std.specs.Option.{ForSome};
ghost use Rattle.nv_base.specs.Geometry.{IsLegal, HasBanks, sectors_of_bank};
ghost use Rattle.nv_base.specs.Pages.{record_pages_of};
ghost use Rattle.fls_model.specs.Step.{IsStep};
ghost use Rattle.fls_jobs.specs.CallOf.{closed_as};
ghost use Rattle.fls_jobs.specs.Start.{IsIdle};
ghost use Rattle.fee_log.specs.Index.{clear_flags};
ghost use Rattle.fee_log.specs.Log.{IsLogState, IsFor, work_in, free_in, begun};
ghost use Rattle.fee_log.specs.Step.{IsPageOf, IsStepAt, due_bytes, op_of, answer_of, after_step, given_up};
ghost use Rattle.fee_switch.specs.Banks.{IsBanksState, IsMade, TakesRecord, phase_of, left_as, left_of, left_beside, is_worn_out, reads_place, reads_next, begun_again, append_begun};

use crate::due::reads_place;
use crate::phase::phase_of;
use crate::reading::buffer_size;
use crate::{ActiveBank, BankBegin, Phase};
use fee_course::{Course, next_copy};
use fee_format::{LAST_GENERATION, RecHead};
use fee_log::{Log, LogStep};
use fls_jobs::Fls;
use fls_model::Flash;
use nv_base::{DeviceNumber, Geometry, Lengths};
use std::alloc::{AllocError, Global};
use std::marker::Model;

/// The banks of a flash, of which one at most is active, with the logs of that one and of the target of a switch. How many they
/// are says who makes them.
#[derive(Drop)]
pub struct Banks {
    pub(crate) geometry: Geometry,
    pub(crate) banks: u32,
    pub(crate) active: Option<ActiveBank>,
    pub(crate) target: u32,
    pub(crate) course: Option<Course>,
    pub(crate) log: Log,
    // of the first numbers of the log, so many, no copy is to be made
    pub(crate) first: usize,
    pub(crate) copies: Log,
    pub(crate) buffer: Vec<u8>,
}

impl Model for Banks {
    ghost use Rattle.fee_course.specs.Copies.{NoneLeft};
    ghost use Rattle.fee_switch.specs.Banks.{BanksState, IsBanksState};
    ghost use Rattle.fee_switch.specs.Inside.{shown};

    ghost Value = { BanksState };

    ghost view = { shown };

    ghost invariant = { λ b. IsBanksState (shown b) × NoneLeft b.first b.log.places b.log.flags };
}

impl Banks {
    /// So many banks, none of which is active. It takes all the memory that they ever need.
    pub fn make(
        alloc: Global,
        geometry: Geometry,
        numbers: &Lengths,
        banks: u32,
    ) -> Result<Banks, AllocError>
        requires legal { IsLegal geometry }
        requires shared { HasBanks geometry banks }
        ensures { IfOk result (λ b. IsMade b geometry banks numbers.now) }
    {
        let log = Log::make(alloc, numbers, geometry, 0, banks)?;
        let copies = Log::make(alloc, numbers, geometry, 0, banks)?;
        let size = buffer_size(geometry, banks) as usize;
        let buffer = vec![in alloc; 0; size]?;
        Ok(Banks {
            geometry,
            banks,
            active: None,
            target: 0,
            course: None,
            log,
            first: 0,
            copies,
            buffer,
        })
    }

    /// The active bank, from 0. Behind it a caller knows what holds of all banks.
    pub fn active(&self) -> Option<u32>
        ensures active { result ≡ option_map (λ a. a.bank) self.now.active }
        ensures state { IsBanksState self.now }
        ensures log { IsLogState self.now.log }
        ensures copies { IsLogState self.now.copies }
        ensures bytes { All (λ x. x < 256) self.now.buffer }
    {
        self.log.lists();
        self.copies.lists();
        tell_bytes(&self.buffer);
        match self.active {
            Some(active) => Some(active.bank),
            None => None,
        }
    }

    /// The shape of the flash.
    pub fn geometry(&self) -> Geometry
        ensures geometry { result ≡ self.now.geometry }
        ensures state { IsBanksState self.now }
    {
        self.geometry
    }

    /// The sectors of each bank.
    pub fn bank_sectors(&self) -> u32
        ensures { result ≡ sectors_of_bank self.now.geometry self.now.banks }
    {
        self.geometry.bank_sectors(self.banks)
    }

    /// Lends the active log. None exactly where no bank is active.
    pub fn log(&self) -> Option<&Log>
        ensures { MatchOption result (self.now.active ≡ None) (λ l. (is_some self.now.active ≡ true) × (l.now ≡ self.now.log)) }
    {
        if self.active.is_some() {
            Some(&self.log)
        } else {
            None
        }
    }

    /// What the switch is doing, if one is open.
    pub fn phase(&self) -> Phase
        ensures { result ≡ phase_of self.now.course }
    {
        phase_of(self.course)
    }

    /// Whether the next step of the open switch reads a content, which changes nothing on the flash.
    pub fn reads_next(&self) -> bool
        ensures { result ≡ reads_next self.now.log self.now.course }
    {
        let Some(Course::Copy { work: None }) = self.course else {
            return false;
        };
        let (numbers, places, flags) = self.log.lists();
        match next_copy(numbers, places, flags, self.first) {
            Some(source) => reads_place(source.place),
            None => false,
        }
    }

    // The turns that the open switch has left, 0 where none is open, while a record is appended to the number at one place of
    // the list, if any.
    fn left_as(&self, appended: Option<usize>) -> u64
        ensures { result ≡ left_as self.now appended self.now.course }
    {
        let Some(course) = self.course else {
            return 0;
        };
        let (numbers, places, flags) = self.log.lists();
        let sectors = self.bank_sectors();
        course.left(
            self.geometry.page,
            sectors,
            numbers,
            places,
            flags,
            appended,
        )
    }

    /// The turns that the open switch has left, 0 where none is open. A record in work in the active log counts as a content
    /// that is to be copied.
    pub fn left(&self) -> u64
        ensures { result ≡ left_of self.now }
    {
        let appended = match self.log.work() {
            Some(head) => self.log.lists().0.place_of(head.number),
            None => None,
        };
        self.left_as(appended)
    }

    /// The turns that the open switch has left once a record is appended to this number, 0 where none is open.
    pub fn left_beside(&self, number: DeviceNumber) -> u64
        ensures { result ≡ left_beside self.now number.0 }
    {
        let appended = self.log.lists().0.place_of(number);
        self.left_as(appended)
    }

    /// Opens a switch to the next bank, or from a blank flash to the first one: with no flag set, the erase of the target's
    /// first sector comes. `WornOut` exactly where the active bank has the last generation.
    pub fn begin(&mut self) -> BankBegin
        requires closed { self.old.course ≡ None }
        requires idle { work_in self.old.log.tail ≡ None }
        ensures worn { result ≡ BankBegin.WornOut → (is_worn_out self.old.active ≡ true) × (self.new ≡ self.old) }
        ensures begun { result ≡ BankBegin.Begun → (is_worn_out self.old.active ≡ false) × (self.new ≡ begun_again self.old (Course.Erase 0)) }
    {
        if let Some(active) = self.active {
            if active.head.generation == LAST_GENERATION {
                return BankBegin::WornOut;
            }
        }
        self.log.clear_flags();
        self.first = 0;
        self.copies.move_to(self.target);
        self.course = Some(Course::Erase { done: 0 });
        BankBegin::Begun
    }

    /// Begins a record in the active log: before a switch, or in its phases `Erase` and `Copy` a content. Its number's flag is
    /// cleared, and a copy of it that is in work sets none.
    pub fn append_start(&mut self, head: RecHead)
        requires active { is_some self.old.active ≡ true }
        requires idle { work_in self.old.log.tail ≡ None }
        requires open { TakesRecord head.kind self.old.course }
        requires configured { IsFor self.old.log.numbers head }
        requires room { record_pages_of head.length self.old.geometry.page ≤ free_in self.old.log }
        ensures { self.new ≡ append_begun self.old head }
    {
        let index = self.log.lists().0.place_of(head.number);
        self.first = 0;
        self.log.append_start(head);
        if let (Some(course), Some(index)) = (self.course, index) {
            self.course = Some(course.appended_to(index));
        }
    }

    /// Programs the next page of that record, as `Log::step`.
    pub fn append_step<F: Flash>(&mut self, fls: &mut Fls<F>, body: &[u8]) -> LogStep
        requires active { is_some self.old.active ≡ true }
        requires work { IsSome (work_in self.old.log.tail) }
        requires body { ForSome (work_in self.old.log.tail) (λ h. length body.now ≡ h.length) }
        requires idle { IsIdle fls.old }
        requires geometry { fls.old.geometry ≡ self.old.geometry }
        ensures step { IsStep (op_of self.old.log body.now) fls.old.flash (answer_of result) fls.new.flash }
        ensures page { IsPageOf self.old.geometry.page (due_bytes self.old.log body.now) }
        ensures last { IsStepAt self.old.log result }
        ensures after { self.new ≡ record self.old { log = after_step self.old.log (answer_of result) } }
        ensures same { fls.new ≡ record fls.old { flash = fls.new.flash; result = closed_as (answer_of result) } }
    {
        self.first = 0;
        self.log.step(fls, body)
    }

    /// Gives that record up, as `Log::abandon`: in a switch only behind a step of it that failed.
    pub fn append_abandon(&mut self)
        requires active { is_some self.old.active ≡ true }
        ensures { self.new ≡ record self.old { log = given_up self.old.log } }
    {
        self.first = 0;
        self.log.abandon();
    }
}

// Tells proofs that bytes are below 256.
fn tell_bytes(bytes: &Vec<u8>)
    ensures { All (λ x. x < 256) bytes.now.items }
{}
