// A changing operation that the device asked for, as contracts see it.
ghost use Rattle.std.specs.Prelude.{◌≡◌};

use crate::content::Content;
use fee_laws::Banks;
use fls_jobs::Fls;
use fls_model::{Flash, FlashAnswer};
use nv_base::Trace;
use std::marker::Model;

/// The next operation of what the driver, the banks and the content of the open job were before it, with its answer. It
/// takes the memory of an answer.
#[derive(Drop)]
pub(crate) struct Asked<F: Flash> {
    fls: Trace<Fls<F>>,
    banks: Trace<Banks>,
    content: Trace<Content>,
    answer: FlashAnswer,
}

impl<F: Flash> Model for Asked<F> {
    ghost use Rattle.fls_model.specs.Told.{Change};
    ghost use Rattle.fee_core.specs.Asked.{change_at};

    ghost Value = { Change };

    ghost view = { λ a. change_at a.fls.items a.banks.items a.content.items a.answer };
}

impl<F: Flash> Asked<F> {
    ghost use Rattle.fee_core.specs.Asked.{change_at};

    pub fn make(
        fls: Trace<Fls<F>>,
        banks: Trace<Banks>,
        content: Trace<Content>,
        answer: FlashAnswer,
    ) -> Asked<F>
        ensures { result ≡ change_at fls.items banks.items content.items answer }
    {
        Asked {
            fls,
            banks,
            content,
            answer,
        }
    }
}
