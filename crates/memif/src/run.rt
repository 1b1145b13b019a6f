// A run over any device.
ghost use Rattle.std.specs.Prelude.{◌≡◌, false, IfOk, List};
ghost use Rattle.memif.specs.Told.{is_open};
ghost use Rattle.memif.specs.Run.{IsCallMade, IsRun, IsUrgentKnown, Made, urgent_after};

use crate::{JobResult, MemDevice};
use nv_base::{Bytes, DeviceNumber};
use std::alloc::{AllocError, Global};

/// A call on a device, of those that change it between two start-ups.
#[derive(Drop)]
pub enum DeviceCall {
    Read {
        number: DeviceNumber,
        length: u16,
    },
    Write {
        number: DeviceNumber,
        content: Bytes,
        urgent: bool,
    },
    Invalidate {
        number: DeviceNumber,
    },
    Erase {
        number: DeviceNumber,
    },
    Cancel,
    Turn,
}

/// What stands after a call: whether it took a job, what the last job came to, and how many changing operations the
/// device asked for so far.
#[derive(Clone, Copy)]
pub struct DeviceStep {
    pub taken: bool,
    pub result: JobResult,
    pub ops: u64,
}

// Makes a call, but no cancel of an urgent job.
#[tactic(auto, using(crate::proofs::Runs::skip_made, crate::proofs::Turning::same_clock, crate::proofs::Runs::turn_made))]
fn make_call<D: MemDevice>(device: &mut D, call: &DeviceCall, urgent: bool) -> bool
    requires { IsUrgentKnown urgent (D.told device.old).stand }
    ensures { IsCallMade call.now result (D.told device.old) (D.clock device.old) (D.told device.new) (D.clock device.new) }
{
    match call {
        DeviceCall::Read { number, length } => device.start_read(*number, *length).is_ok(),
        DeviceCall::Write {
            number,
            content,
            urgent,
        } => device
            .start_write(*number, content.as_slice(), *urgent)
            .is_ok(),
        DeviceCall::Invalidate { number } => device.start_invalidate(*number).is_ok(),
        DeviceCall::Erase { number } => device.start_erase(*number).is_ok(),
        DeviceCall::Cancel => {
            if !urgent {
                device.cancel();
            }
            false
        }
        DeviceCall::Turn => {
            device.turn();
            false
        }
    }
}

// The urgency of the last job that was taken.
fn urgent_after(call: &DeviceCall, taken: bool, before: bool) -> bool
    ensures { result ≡ urgent_after call.now taken before }
{
    match call {
        _ if !taken => before,
        DeviceCall::Write { urgent, .. } => *urgent,
        _ => false,
    }
}

/// Makes the calls in order on a device with no open job, but no cancel of an urgent job, and tells what stood after
/// each. Where the device tells to the end what its numbers hold: after the last call that is what the jobs that ended with `JobOk`
/// settled, in order; and whatever a start-up may find after a power cut at any operation of the run, each number has
/// what was settled then, or what a job may have left since.
pub fn run_calls<D: MemDevice>(
    alloc: Global,
    device: &mut D,
    calls: &[DeviceCall],
) -> Result<Vec<DeviceStep>, AllocError>
    requires { is_open (D.told device.old).stand ≡ false }
    ensures { IfOk result (λ steps. (run : List Made) × IsRun (D.told device.old) calls.now steps.items run (D.told device.new) (D.clock device.new)) }
{
    let mut steps = Vec::new(alloc);
    let mut urgent = false;
    for call in calls {
        let taken = make_call(device, call, urgent);
        urgent = urgent_after(call, taken, urgent);
        steps.push(DeviceStep {
            taken,
            result: device.result(),
            ops: device.ops(),
        })?;
    }
    Ok(steps)
}
