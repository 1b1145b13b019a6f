// A job over any device.
ghost use Rattle.std.specs.Prelude.{◌≡◌, ◌≤◌, Some, None, IfOk, IfErr, true, false, List, length, min};
ghost use Rattle.block_machine.specs.nv_base.Count.{last_count};
ghost use Rattle.block_machine.specs.nv_base.Marks as numbers;
ghost use Rattle.block_machine.specs.nv_base.declared.job.JobStep.TheVariants as step;
ghost use Rattle.memif.specs.Told.{is_open};
ghost use Rattle.memif.specs.Calls.{Accepts};
ghost use Rattle.memif.specs.Trials.{IsFaultless};
ghost use Rattle.job_programs.specs.Program.{step_of};
ghost use Rattle.nvm_figures.specs.Job.{IsSameJob, wish_for};
ghost use Rattle.nvm_figures.specs.Run.{IsInWork, JobTurn};
ghost use Rattle.nvm_figures.specs.Finish.{IsBegun, IsPlaced, IsInTime, IsRun, Refuses, Begins, GoesOn, TurnsJob, wish_of};

use crate::{JobSteps, outcome_of};
use block_machine::nv_base::{
    DeviceNumber, DeviceOp, GivenFrom, Instance, JobStep, Outcome, ReqResult, number_of,
};
use memif::{DeviceRefusal, DeviceTurn, JobResult, MemDevice};

/// How a job ended: as its program says, or as the power went off.
#[derive(Clone, Copy)]
pub enum JobEnd {
    Over {
        result: ReqResult,
        source: GivenFrom,
    },
    Off,
}

/// The end of a job, and the turns of the device that it took.
#[derive(Clone, Copy)]
pub struct Finish {
    pub end: JobEnd,
    pub turns: u64,
}

/// What a job brings to its operations: the length of its block, of a write its content and whether it is urgent.
#[derive(Clone, Copy)]
pub struct Brought<'a> {
    pub length: u16,
    pub content: &'a [u8],
    pub urgent: bool,
}

// A job of the device is open.
fn is_pending<D: MemDevice>(device: &D) -> bool
    ensures { result ≡ is_open (D.told device.now).stand }
{
    matches!(device.result(), JobResult::JobPending)
}

// Starts an operation.
fn start<D: MemDevice>(
    device: &mut D,
    op: DeviceOp,
    number: DeviceNumber,
    job: &Brought,
) -> Result<(), DeviceRefusal>
    ensures { Accepts (wish_for op number.0 job.now.length job.now.content.now job.now.urgent) result (D.told device.old) (D.clock device.old) (D.told device.new) (D.clock device.new) }
{
    match op {
        DeviceOp::Read => device.start_read(number, job.length),
        DeviceOp::Write => device.start_write(number, job.content, job.urgent),
        DeviceOp::Invalidate => device.start_invalidate(number),
        DeviceOp::Erase => device.start_erase(number),
    }
}

// Starts an operation where none is open.
fn begin_next<D: MemDevice>(
    device: &mut D,
    op: DeviceOp,
    instance: Instance,
    job: &Brought,
) -> Result<(), DeviceRefusal>
    requires block { instance.block ≤ 512 }
    requires index { instance.index ≤ 63 }
    ensures { Begins (wish_for op (numbers.number_of instance) job.now.length job.now.content.now job.now.urgent) result (D.told device.old) (D.told device.new) (D.clock device.new) }
{
    if is_pending(device) {
        return Ok(());
    }
    start(device, op, number_of(instance), job)
}

// Makes a turn of the device with a job of the program's open, and answers the next step, or none where the power is off.
fn go_on<D: MemDevice, P: JobSteps>(
    device: &mut D,
    program: &mut P,
    op: DeviceOp,
    instance: Instance,
    job: &Brought,
) -> Option<JobStep>
    requires step { step_of (P.shown program.old) ≡ step.Device op instance }
    requires works { IsInWork job.now.content.now job.now.urgent (P.shown program.old) (D.told device.old).stand }
    requires busy { is_open (D.told device.old).stand ≡ true }
    ensures { GoesOn result (P.shown program.old) (D.told device.old) (P.shown program.new) (D.told device.new) (D.clock device.new) }
{
    match device.turn() {
        DeviceTurn::Worked => {}
        _ => return None,
    }
    match device.result() {
        JobResult::JobPending => Some(JobStep::Device { op, instance }),
        came => Some(program.next(outcome_of(op, came))),
    }
}

// A turn of a job in hand that is at an operation: starts it where none is open, and goes on with it.
fn turn_job<D: MemDevice, P: JobSteps>(
    device: &mut D,
    program: &mut P,
    op: DeviceOp,
    instance: Instance,
    job: &Brought,
) -> Result<Option<JobStep>, DeviceRefusal>
    requires step { step_of (P.shown program.old) ≡ step.Device op instance }
    requires placed { IsPlaced (P.shown program.old) }
    requires tries { (P.shown program.old).failures ≤ (P.shown program.old).retries }
    requires works { IsInWork job.now.content.now job.now.urgent (P.shown program.old) (D.told device.old).stand }
    ensures turned { IfOk result (λ next. TurnsJob job.now.content.now job.now.urgent next (P.shown program.old) (D.told device.old) (P.shown program.new) (D.told device.new)) }
    ensures refused { IfErr result (λ r. Refuses r (wish_of (step_of (P.shown program.new)) job.now.length job.now.content.now job.now.urgent) (D.told device.new)) }
{
    begin_next(device, op, instance, job)?;
    Ok(go_on(device, program, op, instance, job))
}

/// Makes turns of a device until a job is over or the power is off, or answers why the device didn't take an operation of
/// it. Where no fault is counted it is over and posted within the turns that are left at its begin, one for the Post among
/// them; so it is within a number of the job and the device's figures. An urgent write whose pages are ready takes no more
/// than its urgent figure, with a turn for its Pick and one for its Post.
pub fn finish_job<D: MemDevice, P: JobSteps>(
    device: &mut D,
    program: &mut P,
    job: &Brought,
) -> Result<Finish, DeviceRefusal>
    requires idle { is_open (D.told device.old).stand ≡ false }
    requires begun { IsBegun (P.shown program.old) }
    requires placed { IsPlaced (P.shown program.old) }
    ensures run { IfOk result (λ f. (run : List JobTurn) × (f.turns ≡ min (length run) last_count) × IsRun f.end job.now.content.now job.now.urgent (P.shown program.old) (D.told device.old) run (P.shown program.new) (D.told device.new)) }
    ensures same { IfOk result (λ f. IsSameJob (P.shown program.old) (P.shown program.new)) }
    ensures in_time { IfOk result (λ f. IsFaultless (D.told device.old) (D.told device.new) → IsInTime job.now.urgent f.turns (P.shown program.old) (D.told device.old)) }
    ensures refused { IfErr result (λ r. Refuses r (wish_of (step_of (P.shown program.new)) job.now.length job.now.content.now job.now.urgent) (D.told device.new)) }
{
    let mut turns: u64 = 0;
    let _status = device.status();
    let mut step = program.next(Outcome::First);
    loop {
        let (op, instance) = match step {
            JobStep::Device { op, instance } => (op, instance),
            JobStep::Ended { result, source } => {
                return Ok(Finish {
                    end: JobEnd::Over { result, source },
                    turns,
                });
            }
        };
        step = match turn_job(device, program, op, instance, job)? {
            Some(next) => next,
            None => {
                return Ok(Finish {
                    end: JobEnd::Off,
                    turns,
                });
            }
        };
        turns = turns.saturating_add(1);
    }
}
