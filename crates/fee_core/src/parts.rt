// All that a device keeps, in the open.
use crate::Origin;
use crate::asked::Asked;
use crate::content::Content;
use fee_laws::{Banks, FeeJob};
use fls_jobs::Fls;
use fls_model::Flash;
use memif::JobResult;
use nv_base::{Lengths, Trace};
use std::marker::{Model, PhantomData};

/// The driver, the banks, the open job with its content, and the counts of a device. Contracts see all of it; what holds of
/// it is asked and promised by each call.
#[derive(Drop)]
pub(crate) struct FeeParts<F: Flash, O: Origin> {
    pub fls: Fls<F>,
    pub banks: Banks,
    pub numbers: Lengths,
    pub reserve: u32,
    pub content: Content,
    pub job: Option<FeeJob>,
    pub last: JobResult,
    pub given: u16,
    pub starts: Trace<()>,
    pub started: bool,
    pub off: bool,
    pub ops: u64,
    pub faults: u64,
    pub worn: Option<u64>,
    pub operations: Trace<Asked<F>>,
    pub origin: PhantomData<O>,
}

impl<F: Flash, O: Origin> Model for FeeParts<F, O> {
    ghost use Rattle.std.specs.Prelude.{length};
    ghost use Rattle.fee_core.specs.Whole.{Whole};

    ghost Value = { Whole };

    ghost view = { λ s. record {
      parts = record {
        fls = s.fls;
        banks = s.banks;
        content = s.content;
        job = s.job;
        last = s.last;
        given = s.given;
        starts = length s.starts.items;
        started = s.started;
        faults = s.faults;
        worn = s.worn;
        operations = s.operations.items;
      };
      numbers = s.numbers;
      reserve = s.reserve;
      ops = s.ops;
      off = s.off;
    } };
}
