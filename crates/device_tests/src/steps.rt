// What is done with a device, a step at a time, and whether each comes to what is expected of it.
use crate::trial::Trial;
use memif_fee_ea::{DeviceNumber, DeviceTurn, JobResult, MemDevice, PlainMark};
use std::alloc::Global;

/// The number that is written.
pub(crate) const NUMBER: DeviceNumber = DeviceNumber(128);

/// Four bytes, as long as its content is.
pub(crate) type Content = [u8; 4];

// A write erases the two sectors of a slot, and programs the page of the content, the head and the gate: each is a turn.
const WRITE: u32 = 5;

// A mark without a content has no page of one.
const MARK: u32 = 4;

/// A step, with what is expected of it.
#[derive(Clone, Copy)]
pub(crate) enum Step {
    /// A start-up succeeds.
    Start,
    /// A write is done, in as many turns as operations.
    Write(Content),
    /// An invalidation is done.
    Invalidate,
    /// An erase is done.
    Erase,
    /// A write fails at its nth operation, which is counted as a fault.
    Fail {
        content: Content,
        nth: u32,
    },
    /// The power is cut at the nth operation of a write, with so many bytes of it done.
    Cut {
        content: Content,
        nth: u32,
        keep: u32,
    },
    /// A write fails in one turn, without an operation or a fault.
    Worn(Content),
    /// A read gives this content.
    Read(Content),
    /// The mark is Invalid.
    IsInvalid,
    /// The mark is Erased.
    IsErased,
}

/// Steps, one behind the other.
#[derive(Clone, Copy)]
pub(crate) struct Steps<'a> {
    pub(crate) steps: &'a [Step],
}

impl<'a> Trial for Steps<'a> {
    fn try_with<D: MemDevice + Drop>(&self, _alloc: Global, device: D) -> Option<D> {
        let mut device = device;
        for step in self.steps {
            if !makes(&mut device, *step) {
                return None;
            }
        }
        Some(device)
    }
}

fn makes<D: MemDevice>(device: &mut D, step: Step) -> bool {
    match step {
        Step::Start => device.start().is_ok(),
        Step::Write(content) => {
            device.start_write(NUMBER, &content, false).is_ok() && is_done(device, WRITE)
        }
        Step::Invalidate => device.start_invalidate(NUMBER).is_ok() && is_done(device, MARK),
        Step::Erase => device.start_erase(NUMBER).is_ok() && is_done(device, MARK),
        Step::Fail { content, nth } => {
            device.start_write(NUMBER, &content, false).is_ok() && fails(device, nth)
        }
        Step::Cut { content, nth, keep } => {
            device.arm(0, nth, keep);
            device.start_write(NUMBER, &content, false).is_ok() && is_cut(device, nth)
        }
        Step::Worn(content) => {
            device.start_write(NUMBER, &content, false).is_ok() && is_worn(device)
        }
        Step::Read(content) => gives(device, NUMBER, &content),
        Step::IsInvalid => matches!(device.mark_kind(NUMBER), Some(PlainMark::Invalid)),
        Step::IsErased => matches!(device.mark_kind(NUMBER), Some(PlainMark::Erased)),
    }
}

/// How many turns work until nothing is open or the power is off.
pub(crate) fn turns<D: MemDevice>(device: &mut D) -> u32 {
    let mut worked: u32 = 0;
    for _ in 0..60 {
        match device.turn() {
            DeviceTurn::Worked => worked = worked.saturating_add(1),
            DeviceTurn::Idle | DeviceTurn::Off => return worked,
        }
    }
    worked
}

// Whether the open job is done in so many turns, each of one operation.
fn is_done<D: MemDevice>(device: &mut D, count: u32) -> bool {
    let before = device.ops();
    let worked = turns(device);
    let after = device.ops();
    worked == count
        && after == before.saturating_add(u64::from(count))
        && device.result() == JobResult::JobOk
}

// Whether it fails in so many turns, the last of which is counted as a fault.
fn fails<D: MemDevice>(device: &mut D, count: u32) -> bool {
    let before = (device.ops(), device.faults());
    let worked = turns(device);
    let after = (device.ops(), device.faults());
    worked == count
        && after.0 == before.0.saturating_add(u64::from(count))
        && after.1 == before.1.saturating_add(1)
        && device.result() == JobResult::JobFailed
}

// Whether its power is off at its nth operation.
fn is_cut<D: MemDevice>(device: &mut D, nth: u32) -> bool {
    let before = device.ops();
    let worked = turns(device);
    let after = device.ops();
    worked.saturating_add(1) == nth
        && after == before.saturating_add(u64::from(nth))
        && device.result() == JobResult::JobPending
}

// Whether it fails in its one turn with nothing counted.
fn is_worn<D: MemDevice>(device: &mut D) -> bool {
    let before = (device.ops(), device.faults());
    let left = device.left();
    let worked = turns(device);
    let after = (device.ops(), device.faults());
    left == 1 && worked == 1 && after == before && device.result() == JobResult::JobFailed
}

/// Whether a read gives this content, in one turn.
pub(crate) fn gives<D: MemDevice>(device: &mut D, number: DeviceNumber, content: &Content) -> bool {
    device.start_read(number, 4).is_ok()
        && turns(device) == 1
        && device.take_data() == content.as_slice()
}
