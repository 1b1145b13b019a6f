// The log of one bank.
ghost use Rattle.std.specs.Prelude.{◌≡◌, ◌≤◌, ◌<◌, ◌+◌, ℕ, None, Some, Contains, length, IfOk, IsSome, take};
ghost use Rattle.std.specs.Option.{ForSome};
ghost use Rattle.nv_base.specs.Geometry.{IsLegal, HasBanks, size_of, address_of_page};
ghost use Rattle.nv_base.specs.Pages.{record_pages_of};
ghost use Rattle.fls_model.specs.Step.{IsStep};
ghost use Rattle.fls_jobs.specs.CallOf.{closed_as};
ghost use Rattle.fls_jobs.specs.Start.{IsIdle};
ghost use Rattle.fee_image.specs.Places.{IsWithin};
ghost use Rattle.fee_log.specs.Index.{place_in, flag_in, with_flag, clear_flags};
ghost use Rattle.fee_log.specs.Log.{IsLogState, IsFor, head_next, work_in, is_closed, is_owed, free_in, left_in, pages_in, erased_state, begun};
ghost use Rattle.fee_log.specs.Step.{IsPageOf, IsStepAt, due_page, due_bytes, op_of, answer_of, after_step, given_up};

use crate::index::{
    clear_all, clear_flags, count_at, erased_places, flag_of, forget, note, place_of, put_flag,
};
use crate::page::{fill_gate, fill_page};
use crate::tail::tail_begun;
use crate::{LogStep, Tail};
use fee_format::{NEW_FORMAT, RecHead, RecordKind, pages_of};
use fee_image::Place;
use fls_jobs::Fls;
use fls_model::{Flash, FlashAnswer};
use nv_base::{DeviceNumber, Geometry, Lengths, lengths_of};
use std::alloc::{AllocError, Global};
use std::marker::Model;

/// One bank as a log of records, with the place and a flag of each configured number. At most one record is in work.
#[derive(Drop)]
pub struct Log {
    pub(crate) geometry: Geometry,
    pub(crate) banks: u32,
    pub(crate) bank: u32,
    pub(crate) format: u8,
    pub(crate) numbers: Lengths,
    pub(crate) places: Vec<Place>,
    pub(crate) flags: Vec<bool>,
    pub(crate) end: u32,
    pub(crate) tail: Tail,
}

impl Model for Log {
    ghost use Rattle.fee_log.specs.Log.{LogState, IsLogState};
    ghost use Rattle.fee_log.specs.Inside.{shown};

    ghost Value = { LogState };

    ghost view = { shown };

    ghost invariant = { λ l. IsLogState (shown l) };
}

impl Log {
    /// The log of a bank, from 0, of a flash that so many banks share, as if it were erased. It takes all the memory
    /// that it ever needs.
    pub fn make(
        alloc: Global,
        numbers: &Lengths,
        geometry: Geometry,
        bank: u32,
        banks: u32,
    ) -> Result<Log, AllocError>
        requires legal { IsLegal geometry }
        requires banks { HasBanks geometry banks }
        requires bank { bank < banks }
        ensures { IfOk result (λ l. l ≡ erased_state geometry banks bank numbers.now) }
    {
        let pages = geometry.bank_pages(banks);
        prove!(2 <= pages);
        let numbers = lengths_of(alloc, numbers.as_slice())?;
        let _ = numbers.len();
        let places = erased_places(alloc, &numbers)?;
        let flags = clear_flags(alloc, &numbers)?;
        Ok(Log {
            geometry,
            banks,
            bank,
            format: NEW_FORMAT,
            numbers,
            places,
            flags,
            end: 2,
            tail: Tail::Open,
        })
    }

    /// The pages behind the records, the one in work among them, that a next one can take. None in a closed bank.
    pub fn free_pages(&self) -> u32
        ensures pages { result ≡ free_in self.now }
        ensures state { IsLogState self.now }
    {
        let page = self.geometry.page;
        let taken = match self.tail {
            Tail::Open => 0,
            Tail::Writes { head, .. } => pages_of(head.length, page),
            Tail::Owes { head, next: None } => pages_of(head.length, page),
            Tail::Owes {
                head,
                next: Some(next),
            } => pages_of(head.length, page) + pages_of(next.length, page),
            Tail::Closed => return 0,
        };
        self.geometry.bank_pages(self.banks) - (self.end + taken)
    }

    /// Whether the bank takes no more records.
    pub fn closed(&self) -> bool
        ensures { result ≡ is_closed self.now.tail }
    {
        match self.tail {
            Tail::Closed => true,
            _ => false,
        }
    }

    /// The record in work: it is being written, or waits for an owed gate.
    pub fn work(&self) -> Option<RecHead>
        ensures { result ≡ work_in self.now.tail }
    {
        match self.tail {
            Tail::Writes { head, .. } => Some(head),
            Tail::Owes { next, .. } => next,
            _ => None,
        }
    }

    /// Whether the gate of a record that was given up is owed, which the next append programs first.
    pub fn owes_gate(&self) -> bool
        ensures { result ≡ is_owed self.now.tail }
    {
        match self.tail {
            Tail::Owes { .. } => true,
            _ => false,
        }
    }

    /// The pages that are still to program, those of the record in work and of a gate that it waits for.
    pub fn pages_left(&self) -> u32
        ensures { result ≡ left_in self.now.geometry.page self.now.tail }
    {
        let page = self.geometry.page;
        match self.tail {
            Tail::Writes { head, done } => pages_of(head.length, page) - done,
            Tail::Owes {
                next: Some(next),
                ..
            } => 1 + pages_of(next.length, page),
            _ => 0,
        }
    }

    /// Where the last committed record of a number stands. Unwritten where the number isn't configured.
    pub fn find(&self, number: DeviceNumber) -> Place
        ensures place { result ≡ place_in self.now.numbers self.now.places number.0 }
        ensures within { (length : ℕ) → Contains self.now.numbers (number, length) → IsWithin self.now.geometry.page self.now.end length result }
        ensures state { IsLogState self.now }
    {
        place_of(&self.numbers, &self.places, number)
    }

    /// Where on the flash, in bytes, the content begins of the record whose header is at this page of the bank.
    pub fn content_address(&self, at: u32) -> u32
        requires { at + 2 < pages_in self.now }
        ensures address { result ≡ address_of_page self.now.geometry self.now.banks self.now.bank (at + 2) }
        ensures inside { (length : ℕ) → at + record_pages_of length self.now.geometry.page ≤ pages_in self.now → result + length ≤ size_of self.now.geometry }
    {
        self.geometry.page_address(self.banks, self.bank, at + 2)
    }

    /// The flag of a number.
    pub fn flag(&self, number: DeviceNumber) -> bool
        ensures { result ≡ flag_in self.now.numbers self.now.flags number.0 }
    {
        flag_of(&self.numbers, &self.flags, number)
    }

    /// Sets or clears the flag of a number.
    pub fn set_flag(&mut self, number: DeviceNumber, on: bool)
        ensures { self.new ≡ record self.old { flags = with_flag self.old.numbers self.old.flags number.0 on } }
    {
        put_flag(&self.numbers, &mut self.flags, number, on);
    }

    /// Lends the configured numbers, the place and the flag of each in that order.
    pub fn lists(&self) -> (&Lengths, &[Place], &[bool])
        ensures numbers { result.0.now ≡ self.now.numbers }
        ensures places { result.1.now ≡ self.now.places }
        ensures flags { result.2.now ≡ self.now.flags }
        ensures places_count { length self.now.places ≡ length self.now.numbers }
        ensures state { IsLogState self.now }
    {
        (&self.numbers, &self.places, &self.flags)
    }

    /// Clears all flags.
    pub fn clear_flags(&mut self)
        ensures { self.new ≡ record self.old { flags = clear_flags self.old.numbers } }
    {
        clear_all(&self.numbers, &mut self.flags);
    }

    /// Makes it the log of a bank, from 0, as if that were erased.
    pub fn move_to(&mut self, bank: u32)
        requires { bank < self.old.banks }
        ensures { self.new ≡ erased_state self.old.geometry self.old.banks bank self.old.numbers }
    {
        self.bank = bank;
        self.erase();
    }

    fn erase(&mut self)
        ensures { self.new ≡ erased_state self.old.geometry self.old.banks self.old.bank self.old.numbers }
    {
        forget(&self.numbers, &mut self.places);
        clear_all(&self.numbers, &mut self.flags);
        self.format = NEW_FORMAT;
        self.end = 2;
        self.tail = Tail::Open;
    }

    /// The header of the next record of a number, which is counted by one more.
    pub fn head_next(&self, number: DeviceNumber, kind: RecordKind, length: u16) -> RecHead
        ensures head { result ≡ head_next self.now number kind length }
        ensures state { IsLogState self.now }
    {
        RecHead {
            number,
            kind,
            length,
            count: count_at(self.find(number)).saturating_add(1),
        }
    }

    /// Begins a record of a configured number: a content of its length, or the mark of an invalidated or erased instance,
    /// of length 0. Behind an owed gate it waits for that gate. The number's flag is cleared.
    pub fn append_start(&mut self, head: RecHead)
        requires idle { work_in self.old.tail ≡ None }
        requires configured { IsFor self.old.numbers head }
        requires room { record_pages_of head.length self.old.geometry.page ≤ free_in self.old }
        ensures { self.new ≡ begun self.old head }
    {
        put_flag(&self.numbers, &mut self.flags, head.number, false);
        self.tail = tail_begun(self.tail, head);
    }

    /// Programs the page that is due, by one call of the flash, and leaves no job open: the next page of the record in work,
    /// whose content is `body`, the same at each of its steps, or the gate that it waits for. A failed header, header gate
    /// or owed gate closes the bank, and behind any other failed page the next record goes behind this one. `Failed`
    /// comes only where the flash's faults rose in this call, `Off` only while a power cut stands.
    pub fn step<F: Flash>(&mut self, fls: &mut Fls<F>, body: &[u8]) -> LogStep
        requires work { IsSome (work_in self.old.tail) }
        requires body { ForSome (work_in self.old.tail) (λ h. length body.now ≡ h.length) }
        requires idle { IsIdle fls.old }
        requires geometry { fls.old.geometry ≡ self.old.geometry }
        ensures state { IsLogState self.old }
        ensures step { IsStep (op_of self.old body.now) fls.old.flash (answer_of result) fls.new.flash }
        ensures page { IsPageOf self.old.geometry.page (due_bytes self.old body.now) }
        ensures last { IsStepAt self.old result }
        ensures after { self.new ≡ after_step self.old (answer_of result) }
        ensures same { fls.new ≡ record fls.old { flash = fls.new.flash; result = closed_as (answer_of result) } }
    {
        let mut buffer = [0; 256];
        let page = self.fill_due(body, &mut buffer);
        let address = self.geometry.page_address(self.banks, self.bank, page);
        fls.status();
        let answer = fls.program_page(address, &buffer[..self.geometry.page as usize]);
        self.settle(answer)
    }

    // Fills the first bytes with the page that is due, and answers which page of the bank it is.
    fn fill_due(&self, body: &[u8], buffer: &mut [u8]) -> u32
        requires whole { length buffer.old ≡ 256 }
        requires work { IsSome (work_in self.now.tail) }
        requires body { ForSome (work_in self.now.tail) (λ h. length body.now ≡ h.length) }
        ensures state { IsLogState self.now }
        ensures page { result ≡ due_page self.now }
        ensures inside { result < pages_in self.now }
        ensures bytes { take self.now.geometry.page buffer.new ≡ due_bytes self.now body.now }
        ensures page_of { IsPageOf self.now.geometry.page (due_bytes self.now body.now) }
    {
        let size = self.geometry.page as usize;
        match self.tail {
            Tail::Writes { head, done } => {
                fill_page(head, body, done, size, buffer);
                self.end + done
            }
            _ => {
                fill_gate(size, buffer);
                self.end + 1
            }
        }
    }

    // What an answer leaves of the log.
    fn settle(&mut self, answer: FlashAnswer) -> LogStep
        requires work { IsSome (work_in self.old.tail) }
        ensures answer { answer_of result ≡ answer }
        ensures last { IsStepAt self.old result }
        ensures after { self.new ≡ after_step self.old answer }
    {
        match answer {
            FlashAnswer::Done => self.note_done(),
            FlashAnswer::Failed => {
                self.note_failed();
                LogStep::Failed
            }
            FlashAnswer::Off => LogStep::Off,
        }
    }

    fn note_done(&mut self) -> LogStep
        requires work { IsSome (work_in self.old.tail) }
        ensures answer { answer_of result ≡ FlashAnswer.Done }
        ensures last { IsStepAt self.old result }
        ensures after { self.new ≡ after_step self.old FlashAnswer.Done }
    {
        match self.tail {
            Tail::Writes { head, done } => self.note_page(head, done),
            Tail::Owes { head, next } => {
                let Some(next) = next else {
                    unreachable!();
                };
                self.note_gate(head, next);
                LogStep::More
            }
            _ => unreachable!(),
        }
    }

    // One more page of a record is done.
    fn note_page(&mut self, head: RecHead, done: u32) -> LogStep
        requires work { self.old.tail ≡ Tail.Writes head done }
        ensures answer { answer_of result ≡ FlashAnswer.Done }
        ensures last { IsStepAt self.old result }
        ensures after { self.new ≡ after_step self.old FlashAnswer.Done }
    {
        let pages = pages_of(head.length, self.geometry.page);
        if done + 1 < pages {
            self.tail = Tail::Writes {
                head,
                done: done + 1,
            };
            return LogStep::More;
        }
        note(
            &self.numbers,
            &mut self.places,
            self.end,
            head.number,
            head.kind,
            usize::from(head.length),
            head.count,
        );
        self.end += pages;
        self.tail = Tail::Open;
        LogStep::Committed
    }

    // An owed gate is done.
    fn note_gate(&mut self, head: RecHead, next: RecHead)
        requires work { self.old.tail ≡ Tail.Owes head (Some next) }
        ensures after { self.new ≡ after_step self.old FlashAnswer.Done }
    {
        self.end += pages_of(head.length, self.geometry.page);
        self.tail = Tail::Writes {
            head: next,
            done: 0,
        };
    }

    fn note_failed(&mut self)
        requires work { IsSome (work_in self.old.tail) }
        ensures after { self.new ≡ after_step self.old FlashAnswer.Failed }
    {
        match self.tail {
            Tail::Writes { head, done } if done >= 2 => {
                self.end += pages_of(head.length, self.geometry.page);
                self.tail = Tail::Open;
            }
            _ => self.tail = Tail::Closed,
        }
    }

    /// Gives up the record in work, if there is one: before its header nothing is left of it, behind its header its gate is
    /// owed, and behind that gate the next record goes behind this one. A record that waits for an owed gate waits no more.
    pub fn abandon(&mut self)
        ensures { self.new ≡ given_up self.old }
    {
        match self.tail {
            Tail::Writes { head, done } => {
                if done == 0 {
                    self.tail = Tail::Open;
                } else if done == 1 {
                    self.tail = Tail::Owes { head, next: None };
                } else {
                    self.end += pages_of(head.length, self.geometry.page);
                    self.tail = Tail::Open;
                }
            }
            Tail::Owes { head, .. } => self.tail = Tail::Owes { head, next: None },
            _ => {}
        }
    }
}
