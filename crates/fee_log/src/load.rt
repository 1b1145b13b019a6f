// A load of a bank's log, from its pages in order.
ghost use Rattle.std.specs.Prelude.{◌≡◌, ◌<◌, ◌≤◌, ◌+◌, ◌*◌, ◌^◌, ℕ, List, IfSome, true, false, length, None, if◌then◌else◌, IsTrue, ◌↔◌};
ghost use Rattle.fee_format.specs.Formats.{IsFormat};
ghost use Rattle.fee_format.specs.Pages.{record_pages_of};
ghost use Rattle.fee_format.specs.RecHead.{IsLegalRecHead};
ghost use Rattle.fee_image.specs.Bank.{Bank, page_of as page_in};
ghost use Rattle.fee_image.specs.Places.{noted};
ghost use Rattle.fee_image.specs.RecordList.{IsTailBlank, end_of};
ghost use Rattle.fee_log.specs.declared.load.Awaited.TheVariants.{Header, Gate, Commit};
ghost use Rattle.fee_log.specs.declared.tail.Tail.TheVariants.{Closed};
ghost use Rattle.fee_log.specs.Load.{is_rest, IsNext, IsLoad, load_begun, with_record, IsOfBank, HasPages, IsSeen, HasTaken, IsLoading, IsTailOf, IsLoaded};
ghost use Rattle.fee_log.specs.Log.{HasFormat, IsTail, pages_in, work_in};

use crate::index::note;
use crate::{Log, Tail};
use fee_format::{NEW_FORMAT, RecHead, gate_stands, pages_of, read_rec_head};
use fee_image::Place;
use fee_view::{is_tail_blank, page_of, seen_at};
use nv_base::{Lengths, all_are};

/// What a load looks at next: the page where a record may begin; the page behind that one, which had this header or none, and
/// was blank or not; the last page of the record of this header; or, behind the last record, the pages that are left, while
/// those from its end on were blank or not.
#[derive(Clone, Copy)]
pub enum Awaited {
    Header,
    Gate { head: Option<RecHead>, blank: bool },
    Commit { head: RecHead },
    Rest { blank: bool },
}

/// How far a load is: the page of the bank that it looks at next, and for what.
#[derive(Clone, Copy)]
pub struct Load {
    pub next: u32,
    pub awaited: Awaited,
}

// Whether the list of records has ended.
fn is_rest(awaited: Awaited) -> bool
    ensures { result ≡ is_rest awaited }
{
    matches!(awaited, Awaited::Rest { .. })
}

// Where the records so far end at a page.
pub(crate) fn load_at(end: u32, pages: u32) -> Load
    requires inside { end ≤ pages }
    requires few { pages ≤ 2 ^ 22 }
    ensures at { result.next ≡ end }
    ensures next { (p : ℕ) → IsNext p pages end result.next result.awaited }
    ensures seen { (b : Bank) (bytes : List ℕ) → b.pages ≡ pages → IsSeen b bytes end result.next result.awaited }
{
    let awaited = if end + 3 <= pages {
        Awaited::Header
    } else {
        Awaited::Rest { blank: true }
    };
    Load { next: end, awaited }
}

// The page where a record may begin.
pub(crate) fn header_seen(page: &[u8], format: u8, end: u32) -> Load
    requires format { IsFormat format }
    requires few { end ≤ 2 ^ 22 }
    ensures further { end < result.next }
    ensures next { (p pages : ℕ) → end + 3 ≤ pages → IsNext p pages end result.next result.awaited }
    ensures seen { (b : Bank) (bytes : List ℕ) → b.page ≡ length page.now → b.format ≡ format → page_in b bytes end ≡ page.now → IsSeen b bytes end result.next result.awaited }
{
    let head = read_rec_head(page, format);
    let blank = all_are(page, 255);
    Load {
        next: end + 1,
        awaited: Awaited::Gate { head, blank },
    }
}

// The page behind it.
pub(crate) fn gate_seen(
    head: Option<RecHead>,
    blank: bool,
    page: &[u8],
    pages: u32,
    end: u32,
) -> Load
    requires low { 16 ≤ length page.now }
    requires high { length page.now ≤ 256 }
    requires inside { end + 3 ≤ pages }
    requires few { pages ≤ 2 ^ 22 }
    requires head { IfSome head IsLegalRecHead }
    ensures further { end + 1 < result.next }
    ensures next { IsNext (length page.now) pages end result.next result.awaited }
    ensures seen { (b : Bank) (bytes : List ℕ) → IsFormat b.format → b.page ≡ length page.now → b.pages ≡ pages → page_in b bytes (end + 1) ≡ page.now → IsSeen b bytes end (end + 1) (Gate head blank) → IsSeen b bytes end result.next result.awaited }
{
    if let Some(head) = head {
        let behind = end + pages_of(head.length, page.len() as u32);
        if gate_stands(page) && behind <= pages {
            return Load {
                next: behind - 1,
                awaited: Awaited::Commit { head },
            };
        }
    }
    let blank = blank && all_are(page, 255);
    Load {
        next: end + 2,
        awaited: Awaited::Rest { blank },
    }
}

// The pages behind the last record, up to the end of those from a page on.
pub(crate) fn rest_seen(load: Load, from: u32, count: u32, page: u32, bytes: &[u8]) -> Load
    requires low { 16 ≤ page }
    requires high { page ≤ 256 }
    requires size { length bytes.now ≡ count * page }
    requires few { from + count ≤ 2 ^ 22 }
    requires from { from ≤ load.next }
    requires awaited { load.next < from + count → is_rest load.awaited ≡ true }
    ensures at { from + count ≤ result.next }
    ensures next { (pages end : ℕ) → from + count ≤ pages → IsNext page pages end load.next load.awaited → IsNext page pages end result.next result.awaited }
    ensures seen { (b : Bank) (own : List ℕ) (end : ℕ) → b.page ≡ page → end ≤ load.next → HasPages b own from bytes.now → IsSeen b own end load.next load.awaited → IsSeen b own end result.next result.awaited }
{
    let to = from + count;
    if load.next >= to {
        return load;
    }
    let Awaited::Rest { blank } = load.awaited else {
        unreachable!();
    };
    let blank = blank && is_tail_blank(bytes, page, count, load.next - from);
    Load {
        next: to,
        awaited: Awaited::Rest { blank },
    }
}

// What stands behind all records, whose pages are blank or not.
fn tail_loaded(blank: bool, format: u8) -> Tail
    requires format { IsFormat format }
    ensures format { HasFormat format result }
    ensures tail { (p pages end : ℕ) → IsTail p pages end result }
    ensures idle { work_in result ≡ None }
    ensures loaded { (b : Bank) (bytes : List ℕ) → b.format ≡ format → IsTrue blank ↔ IsTailBlank b bytes (end_of b bytes) → IsTailOf b bytes result }
{
    if blank && format == NEW_FORMAT {
        Tail::Open
    } else {
        Tail::Closed
    }
}

// A record whose header stands at a page: its number has it where it is committed.
#[inline(always)]
fn note_record(numbers: &Lengths, places: &mut [Place], at: u32, head: RecHead, committed: bool)
    requires each { length places.old ≡ length numbers.now }
    ensures { places.new ≡ (if committed then noted numbers.now places.old at head else places.old) }
{
    if committed {
        let size = usize::from(head.length);
        note(
            numbers,
            places,
            at,
            head.number,
            head.kind,
            size,
            head.count,
        );
    }
}

impl Log {
    /// Begins to load the log of a bank, from 0, of a format, from the pages behind its head and gate.
    pub fn load_start(&mut self, bank: u32, format: u8) -> Load
        requires bank { bank < self.old.banks }
        requires format { IsFormat format }
        ensures log { self.new ≡ load_begun self.old bank format }
        ensures load { IsLoad self.new result }
        ensures next { result.next ≡ 2 }
        ensures begins { (b : Bank) (bytes : List ℕ) → IsOfBank self.new b → IsLoading b bytes self.new result }
    {
        self.move_to(bank);
        self.load_format(format);
        load_at(2, self.geometry.bank_pages(self.banks))
    }

    // An erased log as one of a format, which takes no records.
    fn load_format(&mut self, format: u8)
        requires format { IsFormat format }
        ensures { self.new ≡ record self.old { format = format; tail = Tail.Closed } }
    {
        self.format = format;
        self.tail = Tail::Closed;
    }

    // The record with this header, where the log ends so far.
    #[inline(always)]
    fn take_record(&mut self, head: RecHead, committed: bool)
        requires closed { self.old.tail ≡ Closed }
        requires legal { IsLegalRecHead head }
        requires inside { self.old.end + record_pages_of head.length self.old.geometry.page ≤ pages_in self.old }
        ensures { self.new ≡ with_record self.old head committed }
    {
        note_record(&self.numbers, &mut self.places, self.end, head, committed);
        self.end += pages_of(head.length, self.geometry.page);
    }

    // The records that lie whole in these pages, from the log's end so far up to the first that doesn't.
    fn take_records(&mut self, from: u32, count: u32, bytes: &[u8])
        requires closed { self.old.tail ≡ Closed }
        requires format { IsFormat self.old.format }
        requires from { from ≤ self.old.end }
        requires to { self.old.end ≤ from + count }
        requires size { length bytes.now ≡ count * self.old.geometry.page }
        requires inside { from + count ≤ pages_in self.old }
        ensures same { self.new ≡ record self.old { places = self.new.places; end = self.new.end } }
        ensures further { self.old.end ≤ self.new.end }
        ensures to { self.new.end ≤ from + count }
        ensures taken { (b : Bank) (own : List ℕ) → IsOfBank self.old b → HasPages b own from bytes.now → HasTaken b own self.old → HasTaken b own self.new }
    {
        while let Some(seen) = seen_at(
            bytes,
            self.geometry.page,
            count,
            self.format,
            self.end - from,
        ) {
            self.take_record(seen.head, seen.committed);
        }
    }

    // The records that lie whole in these pages, and the page behind them, where one may begin.
    fn load_header(&mut self, load: Load, from: u32, count: u32, bytes: &[u8]) -> Load
        requires load { IsLoad self.old load }
        requires awaited { load.awaited ≡ Header }
        requires from { from ≤ load.next }
        requires to { load.next < from + count }
        requires size { length bytes.now ≡ count * self.old.geometry.page }
        requires inside { from + count ≤ pages_in self.old }
        ensures same { self.new ≡ record self.old { places = self.new.places; end = self.new.end } }
        ensures load { IsLoad self.new result }
        ensures further { load.next < result.next }
        ensures seen { (b : Bank) (own : List ℕ) → IsOfBank self.old b → HasPages b own from bytes.now → IsLoading b own self.old load → IsLoading b own self.new result }
    {
        self.take_records(from, count, bytes);
        let pages = self.geometry.bank_pages(self.banks);
        let end = self.end;
        if from + count <= end || pages < end + 3 {
            return load_at(end, pages);
        }
        let page = page_of(bytes, self.geometry.page, end - from);
        header_seen(page, self.format, end)
    }

    // The last page of the record that was awaited: its number has it where it is committed.
    fn load_commit(&mut self, load: Load, head: RecHead, page: &[u8]) -> Load
        requires load { IsLoad self.old load }
        requires awaited { load.awaited ≡ Commit head }
        requires page { length page.now ≡ self.old.geometry.page }
        ensures same { self.new ≡ record self.old { places = self.new.places; end = self.new.end } }
        ensures load { IsLoad self.new result }
        ensures further { load.next < result.next }
        ensures seen { (b : Bank) (bytes : List ℕ) → IsOfBank self.old b → page_in b bytes load.next ≡ page.now → IsLoading b bytes self.old load → IsLoading b bytes self.new result }
    {
        let committed = gate_stands(page);
        self.take_record(head, committed);
        load_at(self.end, self.geometry.bank_pages(self.banks))
    }

    // The page that a load looks at next, of these.
    fn load_page(&mut self, load: Load, from: u32, count: u32, bytes: &[u8]) -> Load
        requires load { IsLoad self.old load }
        requires awaited { is_rest load.awaited ≡ false }
        requires from { from ≤ load.next }
        requires to { load.next < from + count }
        requires size { length bytes.now ≡ count * self.old.geometry.page }
        requires inside { from + count ≤ pages_in self.old }
        ensures same { self.new ≡ record self.old { places = self.new.places; end = self.new.end } }
        ensures load { IsLoad self.new result }
        ensures further { load.next < result.next }
        ensures seen { (b : Bank) (own : List ℕ) → IsOfBank self.old b → HasPages b own from bytes.now → IsLoading b own self.old load → IsLoading b own self.new result }
    {
        let page = page_of(bytes, self.geometry.page, load.next - from);
        match load.awaited {
            Awaited::Header => self.load_header(load, from, count, bytes),
            Awaited::Gate { head, blank } => {
                let pages = self.geometry.bank_pages(self.banks);
                gate_seen(head, blank, page, pages, self.end)
            }
            Awaited::Commit { head } => self.load_commit(load, head, page),
            Awaited::Rest { .. } => unreachable!(),
        }
    }

    /// Looks at so many pages of the bank from one on, which is none behind the page that is awaited. Each page of a bank is
    /// seen once, whatever pieces it comes in.
    pub fn load_pages(&mut self, load: Load, from: u32, count: u32, bytes: &[u8]) -> Load
        requires load { IsLoad self.old load }
        requires from { from ≤ load.next }
        requires size { length bytes.now ≡ count * self.old.geometry.page }
        requires inside { from + count ≤ pages_in self.old }
        ensures same { self.new ≡ record self.old { places = self.new.places; end = self.new.end } }
        ensures load { IsLoad self.new result }
        ensures next { from + count ≤ result.next }
        ensures seen { (b : Bank) (own : List ℕ) → IsOfBank self.old b → HasPages b own from bytes.now → IsLoading b own self.old load → IsLoading b own self.new result }
    {
        let size = self.geometry.page;
        let mut load = load;
        while load.next < from + count && !is_rest(load.awaited) {
            load = self.load_page(load, from, count, bytes);
        }
        rest_seen(load, from, count, size, bytes)
    }

    /// Ends a load that saw all pages. The log takes records where the bank has the format that is written and its tail is blank.
    pub fn load_end(&mut self, load: Load)
        requires load { IsLoad self.old load }
        requires all { pages_in self.old ≤ load.next }
        ensures same { self.new ≡ record self.old { tail = self.new.tail } }
        ensures idle { work_in self.new.tail ≡ None }
        ensures loaded { (b : Bank) (bytes : List ℕ) → IsOfBank self.old b → IsLoading b bytes self.old load → IsLoaded b bytes self.new }
    {
        let Awaited::Rest { blank } = load.awaited else {
            unreachable!();
        };
        self.tail = tail_loaded(blank, self.format);
    }
}
