// The turns of a write, an invalidation or an erase.
ghost use Rattle.std.specs.Prelude.{◌≡◌, ◌≢◌, ◌<◌, true, false, Some, length};
ghost use Rattle.nv_base.specs.declared.job.DeviceOp.TheVariants.{Read};
ghost use Rattle.fls_model.specs.declared.flash.FlashAnswer.TheVariants.{Done, Failed};
ghost use Rattle.fee_format.specs.Pages.{body_pages_of};
ghost use Rattle.ea_told.specs.Device.{state_at, can_write, head_of, kind_of};
ghost use Rattle.ea_told.specs.Turn.{worn_after, states_after, job_done, last_done, given_done, WritesTurn};
ghost use Rattle.ea_told.specs.Inside.{IsSound};
ghost use Rattle.memif.specs.declared.answer.DeviceTurn.TheVariants as turn;
ghost use Rattle.nv_base.specs.Geometry.{IsLegal};
ghost use Rattle.ea_image.specs.Steps.{IsStepOf};

use crate::Origin;
use crate::parts::EaParts;
use crate::steps::{body_pages, make_step};
use ea_image::{SlotHead, SlotStep, has_next, sequence_next, step_next};
use ea_told::{EaJob, SlotState};
use fee_format::RecordKind;
use fls_model::{Flash, FlashAnswer};
use memif::{DeviceTurn, JobResult};
use nv_base::DeviceOp;

// The kind of an operation's head. A read has none.
fn kind_of(op: DeviceOp) -> RecordKind
    requires { op ≢ Read }
    ensures { result ≡ kind_of op }
{
    match op {
        DeviceOp::Read => unreachable!(),
        DeviceOp::Write => RecordKind::Content,
        DeviceOp::Invalidate => RecordKind::Invalid,
        DeviceOp::Erase => RecordKind::Erased,
    }
}

impl<F: Flash, O: Origin> EaParts<F, O> {
    /// Whether a number can be written: it isn't worn out, and its settled head hasn't the last sequence.
    pub(crate) fn is_writable(&self, place: u32) -> bool
        requires { place < length self.now.states }
        ensures { result ≡ can_write (state_at self.now.states place) }
    {
        let state = self.states.at(place);
        state.worn.is_none() && has_next(state.memory.settled)
    }

    // The head that a job writes.
    fn head_of(&self, job: EaJob) -> SlotHead
        requires place { job.place < length self.now.states }
        requires op { job.op ≢ Read }
        requires next { can_write (state_at self.now.states job.place) ≡ true }
        ensures { result ≡ head_of job (state_at self.now.states job.place) }
    {
        SlotHead {
            kind: kind_of(job.op),
            length: job.length,
            sequence: sequence_next(self.states.at(job.place).memory.settled),
        }
    }

    // The job fails without a flash call, and its number is worn out from now on.
    fn turn_worn(&mut self, job: EaJob) -> DeviceTurn
        requires { job.place < length self.old.states }
        ensures turned { result ≡ turn.Worked }
        ensures after { self.new ≡ worn_after job self.old }
    {
        let state = self.states.at(job.place);
        let worn = Some(state.worn.unwrap_or(self.ops));
        self.states.set(job.place, SlotState { worn, ..state });
        self.end(JobResult::JobFailed);
        DeviceTurn::Worked
    }

    // The next step of a job was done: the job goes on, or its mark is settled.
    fn step_done(&mut self, job: EaJob, head: SlotHead)
        requires place { job.place < length self.old.states }
        requires head { head ≡ head_of job (state_at self.old.states job.place) }
        requires legal { IsLegal self.old.geometry }
        requires step { IsStepOf (body_pages_of job.length self.old.geometry.page) job.step }
        ensures { self.new ≡ record self.old {
          states = states_after Done job self.old.states;
          job = job_done (body_pages_of job.length self.old.geometry.page) job job.step;
          last = last_done job.step self.old.last;
          given = given_done job.step self.old.given;
        } }
    {
        let state = self.states.at(job.place);
        let memory = state.memory.done(job.step, head);
        self.states.set(job.place, SlotState { memory, ..state });
        match job.step {
            SlotStep::Gate => self.end(JobResult::JobOk),
            step => {
                let pages = body_pages(job.length, self.geometry.page);
                self.job = Some(EaJob {
                    step: step_next(pages, step),
                    ..job
                });
            }
        }
    }

    // It failed or was cut: a gate is in doubt.
    fn step_failed(&mut self, job: EaJob, head: SlotHead)
        requires place { job.place < length self.old.states }
        requires head { head ≡ head_of job (state_at self.old.states job.place) }
        ensures { self.new ≡ record self.old { states = states_after Failed job self.old.states } }
    {
        let state = self.states.at(job.place);
        let memory = state.memory.failed(job.step, head);
        self.states.set(job.place, SlotState { memory, ..state });
    }

    /// The next step of the open job, or its end where its number is worn out.
    pub(crate) fn turn_write(&mut self, job: EaJob) -> DeviceTurn
        requires sound { IsSound O.making O.entry self.old }
        requires job { self.old.job ≡ Some job }
        requires op { job.op ≢ Read }
        requires on { self.old.off ≡ false }
        ensures { WritesTurn (can_write (state_at self.old.states job.place)) result self.old job self.new }
    {
        if !self.is_writable(job.place) {
            return self.turn_worn(job);
        }
        let head = self.head_of(job);
        let which = self.states.at(job.place).memory.target;
        let answer = make_step(
            &mut self.fls,
            self.geometry,
            (job.place, which),
            head,
            self.content.front(job.length),
            job.step,
            &mut self.operations,
        );
        self.ops = self.ops.saturating_add(1);
        match answer {
            FlashAnswer::Done => {
                self.step_done(job, head);
                DeviceTurn::Worked
            }
            FlashAnswer::Failed => {
                self.step_failed(job, head);
                self.end(JobResult::JobFailed);
                self.faults = self.faults.saturating_add(1);
                DeviceTurn::Worked
            }
            FlashAnswer::Off => {
                self.step_failed(job, head);
                self.off = true;
                DeviceTurn::Off
            }
        }
    }
}
