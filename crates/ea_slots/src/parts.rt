// All that a device keeps, in the open.
use crate::Origin;
use crate::calls::Asked;
use crate::content::Content;
use crate::states::States;
use ea_told::EaJob;
use fls_jobs::Fls;
use fls_model::Flash;
use memif::JobResult;
use nv_base::{Geometry, Lengths, Trace};
use std::marker::{Model, PhantomData};

/// The driver, what is kept of each number, the open job with its content, and the counts of a device. Contracts see all of
/// it; what holds of it is asked and promised by each call.
#[derive(Drop)]
pub(crate) struct EaParts<F: Flash, O: Origin> {
    pub fls: Fls<F>,
    pub geometry: Geometry,
    pub numbers: Lengths,
    pub states: States,
    pub content: Content,
    pub job: Option<EaJob>,
    pub last: JobResult,
    pub given: u16,
    pub starts: Trace<()>,
    pub started: bool,
    pub off: bool,
    pub ops: u64,
    pub faults: u64,
    pub operations: Trace<Asked<F>>,
    pub origin: PhantomData<O>,
}

impl<F: Flash, O: Origin> Model for EaParts<F, O> {
    ghost use Rattle.std.specs.Prelude.{length};
    ghost use Rattle.ea_told.specs.Parts.{Parts};

    ghost Value = { Parts };

    ghost view = { λ s. record {
      fls = s.fls;
      geometry = s.geometry;
      numbers = s.numbers;
      states = s.states;
      content = s.content;
      job = s.job;
      last = s.last;
      given = s.given;
      starts = length s.starts.items;
      started = s.started;
      off = s.off;
      ops = s.ops;
      faults = s.faults;
      operations = s.operations.items;
    } };
}
