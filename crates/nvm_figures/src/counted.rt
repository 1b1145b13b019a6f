// The turns that are left, counted.
ghost use Rattle.std.specs.Prelude.{◌≡◌, ◌+◌, ◌-◌, ◌≤◌, ◌*◌, min, Some, None};
ghost use Rattle.block_machine.specs.nv_base.Count.{last_count};
ghost use Rattle.block_machine.specs.nv_base.Marks as numbers;
ghost use Rattle.block_machine.specs.nv_base.declared.job.JobStep.TheVariants as step;
ghost use Rattle.memif.specs.Told.{IsConfigured, figures_at, is_open, most_of};
ghost use Rattle.job_programs.specs.Program.{Program};
ghost use Rattle.nvm_figures.specs.Left.{stack_left};
ghost use Rattle.nvm_figures.specs.AtWork.{HasNumbers, HasNumbersAt, IsAtWork, turns_behind, unstarted_at};

use block_machine::nv_base::{DeviceOp, Instance, JobStep, number_of};
use memif::{JobResult, MemDevice};

/// A job in hand: the step that its program named last, the failed tries of that, how often an operation is tried again,
/// and whether the job works on both copies of its block.
#[derive(Clone, Copy)]
pub struct AtWork {
    pub step: JobStep,
    pub failures: u8,
    pub retries: u8,
    pub copies: bool,
}

// The turns of so many tries on an instance.
fn turns_of<D: MemDevice>(device: &D, op: DeviceOp, instance: Instance, tries: u64) -> u64
    requires block { instance.block ≤ 512 }
    requires index { instance.index ≤ 63 }
    requires configured { IsConfigured (D.told device.now) (numbers.number_of instance) }
    ensures { result ≡ min (tries * most_of (figures_at (D.told device.now).fixed (numbers.number_of instance)) op) last_count }
{
    tries.saturating_mul(device.most(number_of(instance), op))
}

// The tries of a step that aren't started.
fn unstarted_at<D: MemDevice>(device: &D, job: &AtWork) -> u64
    ensures { result ≡ unstarted_at job.now (is_open (D.told device.now).stand) }
{
    let tries = u64::from(job.retries) + 1;
    let begun = u64::from(job.failures);
    if matches!(device.result(), JobResult::JobPending) {
        (tries - 1).saturating_sub(begun)
    } else {
        tries.saturating_sub(begun)
    }
}

// Those of the copy that is behind this instance, if there is one.
fn turns_behind<D: MemDevice>(device: &D, job: &AtWork, op: DeviceOp, instance: Instance) -> u64
    requires { HasNumbersAt (step.Device op instance) job.now.copies (D.told device.now) }
    ensures { result ≡ min (turns_behind job.now (D.told device.now).fixed op instance) last_count }
{
    if !job.copies || instance.index != 0 {
        return 0;
    }
    let copy_1 = Instance {
        block: instance.block,
        index: 1,
    };
    turns_of(device, op, copy_1, u64::from(job.retries) + 1)
}

/// The turns that are left of the stack, with this job in hand or none: what is open at the device, the most turns of each
/// try of the job that isn't started, and one for its Post. They stand still at 2^64 - 1.
pub fn turns_left<D: MemDevice>(device: &D, hand: Option<AtWork>) -> u64
    requires { HasNumbers hand (D.told device.now) }
    ensures none { hand ≡ None → result ≡ stack_left None (D.told device.now) }
    ensures job { (p : Program) (job : AtWork) → hand ≡ Some job → IsAtWork job p → result ≡ min (stack_left (Some p) (D.told device.now)) last_count }
{
    let Some(job) = hand else {
        return device.left();
    };
    let JobStep::Device { op, instance } = job.step else {
        return device.left().saturating_add(1);
    };
    let here = turns_of(device, op, instance, unstarted_at(device, &job));
    let behind = turns_behind(device, &job, op, instance);
    device
        .left()
        .saturating_add(here)
        .saturating_add(behind)
        .saturating_add(1)
}
