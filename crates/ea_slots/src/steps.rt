// The steps of a write.
ghost use Rattle.std.specs.Prelude.{◌≡◌, ◌≤◌, ◌<◌, ◌+◌, ◌*◌, ◌%◌, length, take, drop};
ghost use Rattle.nv_base.specs.Geometry.{IsLegal, size_of};
ghost use Rattle.fee_format.specs.Pages.{body_pages_of};
ghost use Rattle.fee_format.specs.RecordPages.{filled};
ghost use Rattle.fls_jobs.specs.Start.{IsIdle};
ghost use Rattle.ea_image.specs.SlotHead.{IsLegalSlotHead};
ghost use Rattle.ea_image.specs.Slots.{head_sector, place_of_page};
ghost use Rattle.ea_image.specs.Steps.{IsStepOf, step_op};
ghost use Rattle.ea_image.specs.Laws.{IsSlotOf};
ghost use Rattle.ea_slots.specs.Calls.{IsListed, page_of};

use crate::calls::{Asked, erase, program};
use ea_image::{SlotHead, SlotStep, Which, write_slot_head};
use fee_format::write_gate;
use fls_jobs::Fls;
use fls_model::{Flash, FlashAnswer};
use nv_base::{Geometry, Trace, record_pages};

/// The pages of a body of so many bytes.
pub(crate) fn body_pages(length: u16, page: u32) -> u32
    requires low { 16 ≤ page }
    requires high { page ≤ 256 }
    ensures { result ≡ body_pages_of length page }
{
    record_pages(length, page) - 3
}

/// The sector of the head of a slot of the number at a place.
pub(crate) fn head_sector(place: u32, which: Which) -> u32
    requires { place < 16 }
    ensures { result ≡ head_sector place which }
{
    match which {
        Which::Slot0 => 4 * place,
        Which::Slot1 => 4 * place + 2,
    }
}

/// Where a page of a sector begins.
pub(crate) fn place_of_page(geometry: Geometry, sector: u32, page: u32) -> u32
    requires legal { IsLegal geometry }
    requires sector { sector < geometry.sectors }
    requires page { page * geometry.page + geometry.page ≤ geometry.sector }
    ensures value { result ≡ place_of_page geometry sector page }
    ensures aligned { result % geometry.page ≡ 0 }
    ensures inside { result + geometry.page ≤ size_of geometry }
{
    sector * geometry.sector + page * geometry.page
}

fn piece_of(body: &[u8], from: usize, count: usize) -> &[u8]
    ensures { result.now ≡ take count (drop from body.now) }
{
    if body.len() <= from {
        &[]
    } else if count < body.len() - from {
        &body[from..from + count]
    } else {
        &body[from..]
    }
}

fn write_filled(piece: &[u8], page: &mut [u8])
    requires { length piece.now ≤ length page.old }
    ensures { page.new ≡ filled (length page.old) piece.now }
{
    page[..piece.len()].copy_from_slice(piece);
    page[piece.len()..].fill(255);
}

// The page that a step programs, which an erase leaves as it is.
fn write_page(head: SlotHead, content: &[u8], step: SlotStep, page: &mut [u8])
    requires low { 16 ≤ length page.old }
    requires high { length page.old ≤ 256 }
    requires legal { IsLegalSlotHead head }
    requires step { IsStepOf 65536 step }
    ensures { page.new ≡ page_of (length page.old) head content.now step page.old }
{
    match step {
        SlotStep::EraseHead | SlotStep::EraseBody => {}
        SlotStep::Body(i) => {
            let size = page.len();
            write_filled(piece_of(content, i as usize * size, size), page);
        }
        SlotStep::Head => write_slot_head(head, page),
        SlotStep::Gate => write_gate(page),
    }
}

/// Fills the first bytes of a buffer with the page that a step programs.
fn fill_page(head: SlotHead, content: &[u8], step: SlotStep, size: usize, buffer: &mut [u8])
    requires whole { length buffer.old ≡ 256 }
    requires low { 16 ≤ size }
    requires high { size ≤ 256 }
    requires legal { IsLegalSlotHead head }
    requires step { IsStepOf 65536 step }
    ensures page { take size buffer.new ≡ page_of size head content.now step (take size buffer.old) }
    ensures size { length (take size buffer.new) ≡ size }
{
    write_page(head, content, step, &mut buffer[..size]);
}

/// Makes a step of a write of a content behind this head, to a slot of the number at a place, by one call of the flash, and
/// lists it.
pub(crate) fn make_step<F: Flash>(
    fls: &mut Fls<F>,
    geometry: Geometry,
    at: (u32, Which),
    head: SlotHead,
    content: &[u8],
    step: SlotStep,
    operations: &mut Trace<Asked<F>>,
) -> FlashAnswer
    requires idle { IsIdle fls.old }
    requires geometry { fls.old.geometry ≡ geometry }
    requires slot { IsSlotOf geometry (at.0 + 1) at.0 head content.now }
    requires step { IsStepOf (body_pages_of head.length geometry.page) step }
    ensures { IsListed (step_op geometry at.0 at.1 head content.now step) fls.old operations.old.items result fls.new operations.new.items }
{
    fls.status();
    let sector = head_sector(at.0, at.1);
    let size = geometry.page as usize;
    let mut buffer = [0; 256];
    fill_page(head, content, step, size, &mut buffer);
    let page = &buffer[..size];
    match step {
        SlotStep::EraseHead => erase(fls, sector, operations),
        SlotStep::EraseBody => erase(fls, sector + 1, operations),
        SlotStep::Body(i) => {
            let address = place_of_page(geometry, sector + 1, i);
            program(fls, address, page, operations)
        }
        SlotStep::Head => program(fls, place_of_page(geometry, sector, 0), page, operations),
        SlotStep::Gate => program(fls, place_of_page(geometry, sector, 1), page, operations),
    }
}
