// What is tried with any device.
use memif_fee_ea::MemDevice;
use std::alloc::Global;

/// Calls on a device, which is given back where they come to what is expected.
pub(crate) trait Trial {
    fn try_with<D: MemDevice + Drop>(&self, alloc: Global, device: D) -> Option<D>;
}
