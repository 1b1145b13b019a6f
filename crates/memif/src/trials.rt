// Work from above, over any device.
ghost use Rattle.std.specs.Prelude.{◌≡◌, ◌≤◌, ◌+◌, ◌⊎◌, None, Some, IfOk, IfErr, true, false};
ghost use Rattle.memif.specs.Calls.{StartsUp, refusal_of};
ghost use Rattle.nv_base.specs.Count.{Rose};
ghost use Rattle.nv_base.specs.declared.mark.Mark.TheVariants as mark;
ghost use Rattle.memif.specs.Told.{figures_at, is_off, is_open, nothing_open};
ghost use Rattle.memif.specs.Trials.{Rests, IsFaultless, FindsSettled, Lasts};

use crate::{DeviceRefusal, DeviceTurn, JobResult, MemDevice, StartFault};
use nv_base::DeviceNumber;

/// Where turns came to rest: nothing is open, the power is off, or a fault was counted while no job was open.
#[derive(Clone, Copy)]
pub enum Rest {
    Idle,
    Off,
    Fault,
}

/// Starts the device up. What it found is settled, as the clock tells at this count of operations.
pub fn start_up<D: MemDevice>(device: &mut D) -> Result<(), StartFault>
    ensures settled { IfOk result (λ u. FindsSettled (D.told device.new) (D.clock device.new)) }
    ensures starts { StartsUp result (D.told device.old) (D.clock device.old) (D.told device.new) (D.clock device.new) }
{
    device.start()
}

// A job is open.
fn is_pending<D: MemDevice>(device: &D) -> bool
    ensures { result ≡ is_open (D.told device.now).stand }
{
    matches!(device.result(), JobResult::JobPending)
}

/// Makes turns until nothing is open, the power is off, or a fault comes while no job is open.
#[tactic(auto, using(crate::proofs::Turning::falls_open, crate::proofs::Turning::falls_closed))]
pub fn make_turns<D: MemDevice>(device: &mut D) -> Rest
    ensures rests { Rests result (D.told device.new) }
    ensures lasts { Lasts (D.told device.old) (D.clock device.old) (D.told device.new) (D.clock device.new) }
{
    loop {
        let open = is_pending(device);
        let left = device.left();
        match device.turn() {
            DeviceTurn::Idle => return Rest::Idle,
            DeviceTurn::Off => return Rest::Off,
            DeviceTurn::Worked => {}
        }
        if !open && device.left() >= left {
            return Rest::Fault;
        }
    }
}

/// Erases a number, and tells in how many turns it ended, or came to a power cut.
#[tactic(auto, using(crate::proofs::Turning::falls_open))]
pub fn erase<D: MemDevice>(device: &mut D, number: DeviceNumber) -> Result<u64, DeviceRefusal>
    ensures refused { IfErr result (λ r. (refusal_of (D.told device.old) number.0 None ≡ Some r) × (D.told device.new ≡ D.told device.old)) }
    ensures within { IfOk result (λ turns. IsFaultless (D.told device.old) (D.told device.new) → turns ≤ (D.told device.old).fixed.own + (figures_at (D.told device.old).fixed number.0).erase) }
    ensures ended { IfOk result (λ turns. (is_open (D.told device.new).stand ≡ false) ⊎ (is_off (D.told device.new) ≡ true)) }
{
    device.start_erase(number)?;
    let mut turns: u64 = 0;
    while is_pending(device) {
        match device.turn() {
            DeviceTurn::Worked => turns = turns.saturating_add(1),
            _ => return Ok(turns),
        }
    }
    Ok(turns)
}
