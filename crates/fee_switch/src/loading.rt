// The log of a bank, loaded as the bank is read.
ghost use Rattle.std.specs.Prelude.{◌≡◌, ◌<◌, ◌≤◌, ◌+◌, ◌*◌, List, ℕ, length, None, IfSome, MatchOption};
ghost use Rattle.nv_base.specs.Geometry.{IsLegal, HasBanks, pages_of_bank};
ghost use Rattle.fee_image.specs.Image.{layout_of, bank_in};
ghost use Rattle.fee_image.specs.RecordList.{StandsAs, StandsNot};
ghost use Rattle.fee_log.specs.Load.{HasPages};
ghost use Rattle.fee_view.specs.View.{own_bank};
ghost use Rattle.fee_switch.specs.Reading.{IsShared, IsAnswered, buffer_size};
ghost use Rattle.fee_switch.specs.Start.{IsComing, GoesOn, HasComing, IsFirst, AreTaken, TakesNext, IsLogAt, IsSameShape};

use crate::reading::{pages_next, read_pages};
use crate::{ActiveBank, comes_first};
use fee_format::{BankHead, gate_stands, read_bank_head};
use fee_log::{Load, Log};
use fee_view::page_of;
use fls_jobs::Fls;
use fls_model::{Flash, FlashAnswer};
use nv_base::Geometry;

/// A bank that comes before those that were read: its head, and how far its log is loaded.
#[derive(Clone, Copy)]
pub struct Coming {
    pub head: BankHead,
    pub load: Load,
}

// The head of a bank that stands, by its first pages.
fn head_standing(bytes: &[u8], page: u32) -> Option<BankHead>
    requires two { 2 * page ≤ length bytes.now }
    ensures { MatchOption result (StandsNot (own_bank page 2 1) bytes.now) (λ h. StandsAs (own_bank page 2 1) bytes.now h) }
{
    let head = read_bank_head(page_of(bytes, page, 0))?;
    if gate_stands(page_of(bytes, page, 1)) {
        Some(head)
    } else {
        None
    }
}

// Begins to load the log of a bank from its first pages, so many, where it stands and comes before those that were read.
fn open_bank(
    geometry: Geometry,
    banks: u32,
    bank: u32,
    count: u32,
    bytes: &[u8],
    first: Option<ActiveBank>,
    log: &mut Log,
) -> Option<Coming>
    requires legal { IsLegal geometry }
    requires shared { HasBanks geometry banks }
    requires bank { bank < banks }
    requires two { 2 ≤ count }
    requires inside { count ≤ pages_of_bank geometry banks }
    requires size { length bytes.now ≡ count * geometry.page }
    requires log_geometry { log.old.geometry ≡ geometry }
    requires log_banks { log.old.banks ≡ banks }
    ensures seen { (all : List ℕ) → ((format : ℕ) → HasPages (bank_in (layout_of geometry banks) format bank) all 0 bytes.now) → IsComing (layout_of geometry banks) all bank first result log.new }
    ensures coming { IfSome result (HasComing bank count log.new) }
    ensures none { result ≡ None → log.new ≡ log.old }
    ensures shape { IsSameShape log.old log.new }
{
    let head = head_standing(bytes, geometry.page)?;
    if comes_first(first, head) {
        let load = log.load_start(bank, head.format);
        let load = log.load_pages(load, 0, count, bytes);
        Some(Coming { head, load })
    } else {
        None
    }
}

// Goes on with so many of its pages, from one on.
fn look_on(
    coming: Option<Coming>,
    from: u32,
    count: u32,
    bytes: &[u8],
    bank: u32,
    log: &mut Log,
) -> Option<Coming>
    requires coming { IfSome coming (HasComing bank from log.old) }
    requires size { length bytes.now ≡ count * log.old.geometry.page }
    requires inside { from + count ≤ pages_of_bank log.old.geometry log.old.banks }
    ensures coming { IfSome result (HasComing bank (from + count) log.new) }
    ensures none { result ≡ None → (coming ≡ None) × (log.new ≡ log.old) }
    ensures shape { IsSameShape log.old log.new }
    ensures seen { (all : List ℕ) → ((format : ℕ) → HasPages (bank_in (layout_of log.old.geometry log.old.banks) format bank) all from bytes.now) → GoesOn (layout_of log.old.geometry log.old.banks) all bank coming log.old result log.new }
{
    match coming {
        None => None,
        Some(Coming { head, load }) => {
            let load = log.load_pages(load, from, count, bytes);
            Some(Coming { head, load })
        }
    }
}

// Reads the pages of a bank from one on, in order, a sector at a time and at most as much as the buffer has room for, until a
// read fails, and goes on to load its log from them.
fn read_on<F: Flash>(
    fls: &mut Fls<F>,
    geometry: Geometry,
    banks: u32,
    bank: u32,
    from: u32,
    coming: &mut Option<Coming>,
    log: &mut Log,
    buffer: &mut [u8],
) -> FlashAnswer
    requires flash { IsShared fls.old geometry banks }
    requires bank { bank < banks }
    requires from { from ≤ pages_of_bank geometry banks }
    requires coming { IfSome coming.old (HasComing bank from log.old) }
    requires size { length buffer.old ≡ buffer_size geometry banks }
    requires log_geometry { log.old.geometry ≡ geometry }
    requires log_banks { log.old.banks ≡ banks }
    ensures answer { IsAnswered fls.old.flash result fls.new.flash }
    ensures same { fls.new ≡ record fls.old { flash = fls.new.flash; result = fls.new.result } }
    ensures size { length buffer.new ≡ length buffer.old }
    ensures shape { IsSameShape log.old log.new }
    ensures none { result ≡ FlashAnswer.Done → coming.new ≡ None → (coming.old ≡ None) × (log.new ≡ log.old) }
    ensures all { result ≡ FlashAnswer.Done → IfSome coming.new (HasComing bank (pages_of_bank geometry banks) log.new) }
    ensures seen { result ≡ FlashAnswer.Done → IfSome fls.old.flash.bytes (λ b. GoesOn (layout_of geometry banks) b.now bank coming.old log.old coming.new log.new) }
{
    let pages = geometry.bank_pages(banks);
    let mut done = from;
    while done < pages {
        let count = pages_next(geometry, banks, done);
        let piece = &mut buffer[..(count * geometry.page) as usize];
        match read_pages(fls, geometry, banks, bank, done, count, piece) {
            FlashAnswer::Done => {}
            answer => return answer,
        }
        *coming = look_on(*coming, done, count, piece, bank, log);
        done += count;
    }
    FlashAnswer::Done
}

// A bank was read whole: where it comes before the others its log is loaded, and it comes first.
fn close_bank(bank: u32, coming: Option<Coming>, first: &mut Option<ActiveBank>, log: &mut Log)
    requires coming { IfSome coming (HasComing bank (pages_of_bank log.old.geometry log.old.banks) log.old) }
    requires bank { bank < log.old.banks }
    ensures shape { IsSameShape log.old log.new }
    ensures place { (coming ≡ None → IsLogAt log.old.banks first.old log.old) → IsLogAt log.old.banks first.new log.new }
    ensures taken { (all : List ℕ) → IsComing (layout_of log.old.geometry log.old.banks) all bank first.old coming log.old → IsFirst (layout_of log.old.geometry log.old.banks) all bank first.old coming log.old → AreTaken (layout_of log.old.geometry log.old.banks) all (bank + 1) first.new log.new }
{
    let Some(Coming { head, load }) = coming else {
        return;
    };
    log.load_end(load);
    *first = Some(ActiveBank { bank, head });
}

/// Reads a bank whole, each sector once, in ascending order, and loads the log from it where it comes before those that were read.
pub(crate) fn take_bank<F: Flash>(
    fls: &mut Fls<F>,
    geometry: Geometry,
    banks: u32,
    bank: u32,
    first: &mut Option<ActiveBank>,
    log: &mut Log,
    buffer: &mut [u8],
) -> FlashAnswer
    requires flash { IsShared fls.old geometry banks }
    requires bank { bank < banks }
    requires size { length buffer.old ≡ buffer_size geometry banks }
    requires log_geometry { log.old.geometry ≡ geometry }
    requires log_banks { log.old.banks ≡ banks }
    ensures taken { result ≡ FlashAnswer.Done → TakesNext fls.old.flash (layout_of geometry banks) bank first.old log.old first.new log.new }
    ensures place { result ≡ FlashAnswer.Done → IsLogAt banks first.old log.old → IsLogAt banks first.new log.new }
    ensures answer { IsAnswered fls.old.flash result fls.new.flash }
    ensures same { fls.new ≡ record fls.old { flash = fls.new.flash; result = fls.new.result } }
    ensures shape { IsSameShape log.old log.new }
    ensures size { length buffer.new ≡ length buffer.old }
{
    let count = pages_next(geometry, banks, 0);
    let piece = &mut buffer[..(count * geometry.page) as usize];
    match read_pages(fls, geometry, banks, bank, 0, count, piece) {
        FlashAnswer::Done => {}
        answer => return answer,
    }
    let mut coming = open_bank(geometry, banks, bank, count, piece, *first, log);
    match read_on(fls, geometry, banks, bank, count, &mut coming, log, buffer) {
        FlashAnswer::Done => {}
        answer => return answer,
    }
    close_bank(bank, coming, first, log);
    FlashAnswer::Done
}
