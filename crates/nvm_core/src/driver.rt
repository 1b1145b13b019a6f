// The device with the job in hand.
ghost use Rattle.std.specs.Prelude.{◌≡◌, is_some};
ghost use Rattle.nvm_laws.specs.memif.Told.{faults_of};
ghost use Rattle.nvm_core.specs.Stack.{driver_of};

use nvm_laws::memif::MemDevice;
use nvm_laws::{Hand, SyncCalls};

/// The device with the job in hand, and the application's copies of its synchronized blocks: all that a turn needs beside the desk. In
/// a stack they stand beside it; where the desk is under a lock, they are the one driver's.
#[derive(Drop)]
pub struct Driver<D, C> {
    pub device: D,
    pub copies: C,
    pub hand: Option<Hand>,
}

impl<D: MemDevice, C: SyncCalls + Drop> Driver<D, C> {
    /// Whether a job is in hand.
    pub fn is_busy(&self) -> bool
        ensures { result ≡ is_some self.now.hand }
    {
        self.hand.is_some()
    }

    /// How many faults the device counted; the count stands still at its end.
    pub fn faults(&self) -> u64
        ensures { result ≡ faults_of (D.told self.now.device) }
    {
        self.device.faults()
    }

    /// Gives the device back.
    pub fn into_device(self) -> D
        ensures { result ≡ self.device }
    {
        let Driver { device, .. } = self;
        device
    }

    /// Its device, the application's copies, and the job in hand.
    pub fn into_parts(self) -> (D, C, Option<Hand>)
        ensures device { result.0 ≡ self.device }
        ensures copies { result.1 ≡ self.copies }
        ensures hand { result.2 ≡ self.hand }
    {
        let Driver {
            device,
            copies,
            hand,
        } = self;
        (device, copies, hand)
    }

    /// The same driver with other copies, and those that it had.
    pub fn with_copies<E: SyncCalls + Drop>(self, copies: E) -> (Driver<D, E>, C)
        ensures driver { result.0 ≡ driver_of self.device copies self.hand }
        ensures copies { result.1 ≡ self.copies }
    {
        let Driver {
            device,
            copies: own,
            hand,
        } = self;
        (
            Driver {
                device,
                copies,
                hand,
            },
            own,
        )
    }
}
