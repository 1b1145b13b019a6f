// The copies of a switch: the content that is read, and the record that is written.
ghost use Rattle.std.specs.Prelude.{◌≡◌, ◌<◌, ◌≤◌, ◌+◌, [], None, IsSome, length, take};
ghost use Rattle.std.specs.Option.{ForSome};
ghost use Rattle.nv_base.specs.Geometry.{address_of_page};
ghost use Rattle.nv_base.specs.Pages.{record_pages_of};
ghost use Rattle.fls_model.specs.Read.{IsRead};
ghost use Rattle.fls_model.specs.Step.{IsStep};
ghost use Rattle.fls_jobs.specs.CallOf.{closed_as};
ghost use Rattle.fls_jobs.specs.Start.{IsIdle};
ghost use Rattle.fee_log.specs.Log.{IsFor, work_in, free_in, begun};
ghost use Rattle.fee_log.specs.Step.{op_of, after_step};
ghost use Rattle.fee_switch.specs.Copy.{begun_where, head_at};

use fee_format::{RecHead, RecordKind};
use fee_image::Place;
use fee_log::Log;
use fls_jobs::Fls;
use fls_model::{Flash, FlashAnswer};
use nv_base::DeviceNumber;

/// The record that copies what stands at a place of a number, as often written.
pub(crate) fn head_at(place: Place, number: DeviceNumber, size: u16) -> RecHead
    ensures { result ≡ head_at place number size }
{
    let (kind, length, count) = match place {
        Place::Content { count, .. } => (RecordKind::Content, size, count),
        Place::Invalid { count } => (RecordKind::Invalid, 0, count),
        Place::Erased { count } => (RecordKind::Erased, 0, count),
        Place::Unwritten => (RecordKind::Erased, 0, 0),
    };
    RecHead {
        number,
        kind,
        length,
        count,
    }
}

/// Reads a content of a log to the front of a buffer, and begins its copy.
pub(crate) fn read_content<F: Flash>(
    fls: &mut Fls<F>,
    log: &Log,
    copies: &mut Log,
    buffer: &mut [u8],
    head: RecHead,
    at: u32,
) -> FlashAnswer
    requires idle { IsIdle fls.old }
    requires geometry { fls.old.geometry ≡ log.now.geometry }
    requires within { at + record_pages_of head.length log.now.geometry.page ≤ log.now.end }
    requires buffer { head.length ≤ length buffer.old }
    requires no_work { work_in copies.old.tail ≡ None }
    requires configured { IsFor copies.old.numbers head }
    requires room { record_pages_of head.length copies.old.geometry.page ≤ free_in copies.old }
    ensures read { IsRead (address_of_page log.now.geometry log.now.banks log.now.bank (at + 2)) fls.old.flash (take head.length buffer.old) result (take head.length buffer.new) fls.new.flash }
    ensures begins { copies.new ≡ begun_where result copies.old head }
    ensures whole { length buffer.new ≡ length buffer.old }
    ensures same { fls.new ≡ record fls.old { flash = fls.new.flash; result = closed_as result } }
{
    fls.status();
    log.lists();
    let address = log.content_address(at);
    let answer = fls.read_range(address, &mut buffer[..usize::from(head.length)]);
    if let FlashAnswer::Done = answer {
        copies.append_start(head);
    }
    answer
}

/// Begins the copy of a mark without content, and programs its first page.
pub(crate) fn begin_mark<F: Flash>(fls: &mut Fls<F>, copies: &mut Log, head: RecHead) -> FlashAnswer
    requires idle { IsIdle fls.old }
    requires geometry { fls.old.geometry ≡ copies.old.geometry }
    requires no_work { work_in copies.old.tail ≡ None }
    requires mark { head.length ≡ 0 }
    requires configured { IsFor copies.old.numbers head }
    requires room { record_pages_of head.length copies.old.geometry.page ≤ free_in copies.old }
    ensures step { IsStep (op_of (begun copies.old head) []) fls.old.flash result fls.new.flash }
    ensures after { copies.new ≡ after_step (begun copies.old head) result }
    ensures same { fls.new ≡ record fls.old { flash = fls.new.flash; result = closed_as result } }
{
    copies.append_start(head);
    copies.step(fls, &[]).answer()
}

/// Programs the next page of the copy in work, whose content stands at the front of the buffer.
pub(crate) fn copy_page<F: Flash>(fls: &mut Fls<F>, copies: &mut Log, buffer: &[u8]) -> FlashAnswer
    requires idle { IsIdle fls.old }
    requires geometry { fls.old.geometry ≡ copies.old.geometry }
    requires work { IsSome (work_in copies.old.tail) }
    requires buffer { ForSome (work_in copies.old.tail) (λ h. h.length ≤ length buffer.now) }
    ensures step { ForSome (work_in copies.old.tail) (λ h. IsStep (op_of copies.old (take h.length buffer.now)) fls.old.flash result fls.new.flash) }
    ensures after { copies.new ≡ after_step copies.old result }
    ensures same { fls.new ≡ record fls.old { flash = fls.new.flash; result = closed_as result } }
{
    let Some(head) = copies.work() else {
        unreachable!();
    };
    copies
        .step(fls, &buffer[..usize::from(head.length)])
        .answer()
}
