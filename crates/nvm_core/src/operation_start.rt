// The start of the next operation of the job in hand.
ghost use Rattle.nvm_laws.specs.memif.Clock.{SameClock};
ghost use Rattle.nvm_core.specs.OperationStart.{IsOfHand, IsStarted, IsWritten, StartKeeps, WriteKeeps};

use nvm_laws::memif::{DeviceRefusal, MemDevice};
use nvm_laws::{Desk, DeviceNumber, DeviceOp, Instance, number_of};

/// Starts an operation that the job in hand names.
#[tactic(auto, using(nvm_laws::proofs::memif::Turning::same_clock))]
pub(crate) fn start_on<D: MemDevice>(
    desk: &Desk,
    device: &mut D,
    op: DeviceOp,
    instance: Instance,
) -> Result<(), DeviceRefusal>
    requires { IsOfHand desk.now instance }
    ensures started { IsStarted result desk.now op instance (D.told device.old) (D.told device.new) }
    ensures clock { SameClock (D.clock device.old) (D.clock device.new) }
    ensures keeps { StartKeeps desk.now op instance (D.told device.old) (D.clock device.old) (D.told device.new) (D.clock device.new) }
{
    let _blocks = desk.config().blocks();
    let Some(desc) = desk.desc_in_hand() else {
        return Err(DeviceRefusal::BadNumber);
    };
    let number = number_of(instance);
    match op {
        DeviceOp::Read => device.start_read(number, desc.length),
        DeviceOp::Write => start_write(desk, device, number),
        DeviceOp::Invalidate => device.start_invalidate(number),
        DeviceOp::Erase => device.start_erase(number),
    }
}

// The write of what the job in hand has.
#[tactic(auto, using(nvm_laws::proofs::memif::Turning::same_clock))]
fn start_write<D: MemDevice>(
    desk: &Desk,
    device: &mut D,
    number: DeviceNumber,
) -> Result<(), DeviceRefusal>
    ensures started { IsWritten result desk.now number.0 (D.told device.old) (D.told device.new) }
    ensures clock { SameClock (D.clock device.old) (D.clock device.new) }
    ensures keeps { WriteKeeps desk.now number.0 (D.told device.old) (D.clock device.old) (D.told device.new) (D.clock device.new) }
{
    let urgent = desk.is_urgent();
    match desk.hand() {
        Some(job) => match job.content() {
            Some(content) => device.start_write(number, content, urgent),
            None => Err(DeviceRefusal::BadLength),
        },
        None => Err(DeviceRefusal::BadLength),
    }
}
