// The changing operations of a device, each listed as it is made.
ghost use Rattle.std.specs.Prelude.{◌≡◌, ◌≤◌, length};
ghost use Rattle.fls_model.specs.Told.{HasPage, HasSector};
ghost use Rattle.fls_model.specs.Step.{programs, erases};
ghost use Rattle.fls_jobs.specs.Start.{IsIdle};
ghost use Rattle.ea_slots.specs.Calls.{change_at, IsListed};

use fls_jobs::Fls;
use fls_model::{Call, Flash, FlashAnswer, program_call};
use nv_base::Trace;
use std::marker::Model;

/// A changing operation that the device asked for, of what the driver was before it, with its answer.
#[derive(Drop)]
pub(crate) struct Asked<F: Flash> {
    fls: Trace<Fls<F>>,
    call: Call,
    answer: FlashAnswer,
}

impl<F: Flash> Model for Asked<F> {
    ghost use Rattle.fls_model.specs.Told.{Change};
    ghost use Rattle.ea_slots.specs.Calls.{change_at};

    ghost Value = { Change };

    ghost view = { λ a. change_at a.fls.items a.call a.answer };
}

fn listed_as<F: Flash>(fls: Trace<Fls<F>>, call: Call, answer: FlashAnswer) -> Asked<F>
    ensures { result ≡ change_at fls.items call answer }
{
    Asked { fls, call, answer }
}

/// Programs a page, and lists that operation.
pub(crate) fn program<F: Flash>(
    fls: &mut Fls<F>,
    address: u32,
    page: &[u8],
    operations: &mut Trace<Asked<F>>,
) -> FlashAnswer
    requires idle { IsIdle fls.old }
    requires page { HasPage fls.old.flash address (length page.now) }
    ensures { IsListed (programs address page.now) fls.old operations.old.items result fls.new operations.new.items }
{
    let before = Trace::new().with(fls);
    let answer = fls.program_page(address, page);
    let change = listed_as(before, program_call(address, page), answer);
    *operations = operations.with(&change);
    answer
}

/// Erases a sector, and lists that operation.
pub(crate) fn erase<F: Flash>(
    fls: &mut Fls<F>,
    sector: u32,
    operations: &mut Trace<Asked<F>>,
) -> FlashAnswer
    requires idle { IsIdle fls.old }
    requires sector { HasSector fls.old.flash sector }
    ensures { IsListed (erases fls.old.flash.geometry sector) fls.old operations.old.items result fls.new operations.new.items }
{
    let before = Trace::new().with(fls);
    let answer = fls.erase_sector(sector);
    let change = listed_as(before, Call::Sector { sector }, answer);
    *operations = operations.with(&change);
    answer
}
