// Stored instances and their device numbers.
ghost use Rattle.std.specs.Prelude.{◌≡◌, ◌+◌, ◌*◌, ◌≤◌};
ghost use Rattle.nv_base.specs.Marks.{instance_of, number_of};

/// One stored instance of a block: a native block has index 0, a redundant one 0 and 1, a dataset one for each
/// stored dataset.
#[derive(Clone, Copy, PartialEq, Eq)]
pub struct Instance {
    pub block: u16,
    pub index: u8,
}

/// The number by which a memory device knows an instance. Its low six bits are the index.
#[derive(Clone, Copy, PartialEq, Eq, PartialOrd, Ord)]
pub struct DeviceNumber(pub u16);

/// The device number of an instance: 64 numbers for each block.
pub fn number_of(instance: Instance) -> DeviceNumber
    requires block { instance.block ≤ 512 }
    requires index { instance.index ≤ 63 }
    ensures value { result.0 ≡ number_of instance }
    ensures inverse { instance_of result ≡ instance }
{
    DeviceNumber(instance.block * 64 + u16::from(instance.index))
}

/// The instance of a device number.
pub fn instance_of(number: DeviceNumber) -> Instance
    ensures value { result ≡ instance_of number }
    ensures inverse { number_of result ≡ number.0 }
    ensures block { result.block ≤ 1023 }
    ensures index { result.index ≤ 63 }
{
    Instance {
        block: number.0 / 64,
        index: (number.0 % 64) as u8,
    }
}
