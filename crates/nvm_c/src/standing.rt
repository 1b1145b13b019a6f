// What stands on the flash of a device, read where it stands.
ghost use Rattle.std.specs.Prelude.{◌≡◌, ◌≤◌, ◌<◌, ◌+◌, ◌++◌, [], true, length, Some, IfOk, IsSomeAnd};
ghost use Rattle.nvm.specs.nv_base.Marks.{instance_of, listed, next_or};
ghost use Rattle.nvm.specs.memif.Told.{length_of, slot_at};
ghost use Rattle.nvm.specs.fls_model.Told.{bytes_now};
ghost use Rattle.nvm.specs.nvm_flash.fee_told.Device.{slots_in};
ghost use Rattle.nvm.specs.nvm_flash.nvm_laws.Standing.{settled_marks};
ghost use Rattle.nvm_c.specs.Standing.{HoldsLength};

use fee_core::{Fee, MarkPlace};
use lent_flash::LentFlash;
use nv_base::{Bytes, DeviceNumber, Lengths, Mark, Marks, MarksRoom, instance_of};
use nvm::{Cutter, Origin};
use std::alloc::{AllocError, Global};

/// Why a line isn't told: there is no memory; or the last entry is a start-up's, whose marks stand on the flash, but a further
/// start-up failed, so that nothing is read; or from an image that wasn't sound an operation was made, and what stands isn't told.
#[derive(Clone, Copy, Debug, Drop)]
pub enum LineFault {
    Memory,
    Down,
    Unsound,
}

/// The device of a unit.
pub type LentDevice<O> = Fee<Cutter<LentFlash>, O>;

// What a number of a length holds for certain.
fn mark_of<O: Origin>(
    alloc: Global,
    device: &LentDevice<O>,
    number: DeviceNumber,
    length: u16,
) -> Result<Mark, AllocError>
    requires started { device.now.started ≡ true }
    requires configured { length_of device.now.making.numbers number.0 ≡ Some length }
    ensures settled { IfOk result (λ mark. IsSomeAnd (bytes_now device.now.flash) (λ bytes. mark ≡ (slot_at device.now.making.numbers (slots_in device.now bytes) number.0).settled.mark)) }
    ensures fits { IfOk result (λ mark. HoldsLength length mark) }
{
    let flash = device.flash().inner();
    let _size = flash.len();
    match device.mark_place(number, length) {
        MarkPlace::Erased => Ok(Mark::Erased),
        MarkPlace::Invalid => Ok(Mark::Invalid),
        MarkPlace::Content { address } => {
            let mut content = vec![in alloc; 0; usize::from(length)]?;
            flash.copy_at(address, &mut content);
            Ok(Mark::Content(Bytes::from_vec(content)))
        }
    }
}

// Adds a mark behind the others, where it isn't erased.
fn add(marks: &mut MarksRoom, number: DeviceNumber, length: u16, mark: Mark)
    requires room { 0 < marks.old.room }
    requires above { next_or 0 marks.old.marks ≤ number.0 }
    requires some { 1 ≤ length }
    requires fits { HoldsLength length mark }
    ensures marks { marks.new.marks ≡ marks.old.marks ++ listed (instance_of number) mark [] }
    ensures room { marks.old.room ≤ marks.new.room + 1 }
{
    match mark {
        Mark::Erased => {}
        mark => marks.add(instance_of(number), mark),
    }
}

/// What these numbers of a device hold for certain, as a list. It takes the memory of that list and of its contents.
pub fn marks_standing<O: Origin>(
    alloc: Global,
    numbers: &Lengths,
    device: &LentDevice<O>,
) -> Result<Marks, AllocError>
    requires started { device.now.started ≡ true }
    requires numbers { numbers.now ≡ device.now.making.numbers }
    ensures { IfOk result (λ marks. IsSomeAnd (bytes_now device.now.flash) (λ bytes. marks ≡ settled_marks device.now.making.numbers (slots_in device.now bytes))) }
{
    let _size = device.flash().inner().len();
    let mut marks = MarksRoom::make(alloc, numbers.len())?;
    for item in numbers.as_slice() {
        let mark = mark_of(alloc, device, item.0, item.1)?;
        add(&mut marks, item.0, item.1, mark);
    }
    Ok(marks.into_marks())
}
