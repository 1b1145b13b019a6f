// The power of a device: its start-up, and plans of power cuts.
ghost use Rattle.std.specs.Prelude.{false};
ghost use Rattle.memif.specs.Calls.{Arms, StartsUp};
ghost use Rattle.fee_core.specs.Whole.{Sound, told_in, clock_in};

use crate::Origin;
use crate::parts::FeeParts;
use fee_laws::BankStart;
use fls_model::Flash;
use memif::{JobResult, StartFault};

impl<F: Flash, O: Origin> FeeParts<F, O> {
    /// Turns the power on, reads each sector once and settles each number's mark at what is found. It drops an open job and an
    /// open switch. `Fault` comes only where a read failed, which a fault counts; then the device isn't started.
    pub fn start(&mut self) -> Result<(), StartFault>
        requires { Sound O.making O.entry self.old }
        ensures sound { Sound O.making O.entry self.new }
        ensures start { StartsUp result (told_in O.making O.entry self.old) (clock_in O.making O.entry self.old) (told_in O.making O.entry self.new) (clock_in O.making O.entry self.new) }
    {
        self.fls.power_on();
        let answer = self.banks.start(&mut self.fls);
        let _active = self.banks.active();
        self.off = false;
        self.job = None;
        self.last = JobResult::JobOk;
        self.given = 0;
        self.starts = self.starts.with(&());
        match answer {
            BankStart::Ready => {
                self.started = true;
                Ok(())
            }
            BankStart::Failed => {
                self.started = false;
                self.faults = self.faults.saturating_add(1);
                Err(StartFault::Fault)
            }
        }
    }

    /// Plans a power cut of its flash at the nth changing operation from now, with so many bytes of it done, where `which` is
    /// 0 and the flash can.
    pub fn arm(&mut self, which: u8, nth: u32, keep: u32)
        requires { Sound O.making O.entry self.old }
        ensures sound { Sound O.making O.entry self.new }
        ensures arms { Arms which nth keep (told_in O.making O.entry self.old) (clock_in O.making O.entry self.old) (told_in O.making O.entry self.new) (clock_in O.making O.entry self.new) }
    {
        let _started = self.started;
        if which == 0 {
            self.fls.arm(nth, keep);
        }
    }
}
