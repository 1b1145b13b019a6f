// A start-up: which bank is active, and its log.
ghost use Rattle.std.specs.Prelude.{◌≡◌, length, None, IfSome, false};
ghost use Rattle.fls_jobs.specs.Start.{IsIdle};
ghost use Rattle.fee_image.specs.Image.{layout_of};
ghost use Rattle.fee_switch.specs.Reading.{IsShared, IsAnswered, buffer_size};
ghost use Rattle.fee_switch.specs.Start.{AreTaken, IsLogAt, IsSameShape};
ghost use Rattle.fee_switch.specs.Banks.{IsSameFlash, IsStartOf, target_after, FindsActive, LoadsActive};
ghost use Rattle.fee_log.specs.Index.{clear_flags};
ghost use Rattle.fee_log.specs.Log.{work_in, erased_state};

use crate::due::target_of;
use crate::loading::take_bank;
use crate::{ActiveBank, BankStart, Banks};
use fee_log::Log;
use fls_jobs::Fls;
use fls_model::{Flash, FlashAnswer};
use nv_base::Geometry;

// Reads all banks, one after another, and loads the log from the active one.
fn take_banks<F: Flash>(
    fls: &mut Fls<F>,
    geometry: Geometry,
    banks: u32,
    first: &mut Option<ActiveBank>,
    log: &mut Log,
    buffer: &mut [u8],
) -> FlashAnswer
    requires flash { IsShared fls.old geometry banks }
    requires none { first.old ≡ None }
    requires size { length buffer.old ≡ buffer_size geometry banks }
    requires log_geometry { log.old.geometry ≡ geometry }
    requires log_banks { log.old.banks ≡ banks }
    ensures taken { result ≡ FlashAnswer.Done → IfSome fls.old.flash.bytes (λ b. AreTaken (layout_of geometry banks) b.now banks first.new log.new) }
    ensures answer { IsAnswered fls.old.flash result fls.new.flash }
    ensures same { fls.new ≡ record fls.old { flash = fls.new.flash; result = fls.new.result } }
    ensures place { result ≡ FlashAnswer.Done → IsLogAt banks first.new log.new }
    ensures shape { IsSameShape log.old log.new }
    ensures size { length buffer.new ≡ length buffer.old }
{
    for bank in 0..banks {
        match take_bank(fls, geometry, banks, bank, first, log, buffer) {
            FlashAnswer::Done => {}
            answer => return answer,
        }
    }
    FlashAnswer::Done
}

impl Banks {
    /// Reads each sector once, in ascending order, one of more than 4,096 bytes in pieces of so many, and programs nothing. The
    /// active bank is the one that stands with the greatest generation, on a tie the lower one, whatever the bytes are; its log
    /// is loaded, or without one that of an erased bank, and no switch is open. `Failed` comes only where the flash's faults
    /// rose; then no bank is active.
    pub fn start<F: Flash>(&mut self, fls: &mut Fls<F>) -> BankStart
        requires idle { IsIdle fls.old }
        requires geometry { fls.old.geometry ≡ self.old.geometry }
        requires on { fls.old.flash.off ≡ false }
        ensures ready { result ≡ BankStart.Ready → IfSome fls.old.flash.bytes (λ b. FindsActive b.now self.new) }
        ensures loaded { result ≡ BankStart.Ready → IfSome fls.old.flash.bytes (λ b. LoadsActive b.now self.new) }
        ensures flash { IsStartOf fls.old.flash result fls.new.flash }
        ensures failed { result ≡ BankStart.Failed → self.new.active ≡ None }
        ensures format { IfSome self.new.active (λ a. self.new.log.format ≡ a.head.format) }
        ensures clear { result ≡ BankStart.Ready → self.new.log.flags ≡ clear_flags self.new.log.numbers }
        ensures idle { result ≡ BankStart.Ready → work_in self.new.log.tail ≡ None }
        ensures blank { result ≡ BankStart.Ready → self.new.active ≡ None → self.new.log ≡ erased_state self.old.geometry self.old.banks 0 self.old.log.numbers }
        ensures closed { self.new.course ≡ None }
        ensures same { fls.new ≡ record fls.old { flash = fls.new.flash; result = fls.new.result } }
        ensures flash_of { IsSameFlash self.old self.new }
    {
        self.activate(None);
        self.first = 0;
        let mut first = None;
        let answer = take_banks(
            fls,
            self.geometry,
            self.banks,
            &mut first,
            &mut self.log,
            &mut self.buffer,
        );
        if let FlashAnswer::Done = answer {
            self.activate(first);
            if first.is_none() {
                self.first = 0;
                self.log.move_to(0);
            }
            BankStart::Ready
        } else {
            BankStart::Failed
        }
    }

    // A bank is active, or none: the bank behind it is the next target, and no switch is open.
    fn activate(&mut self, active: Option<ActiveBank>)
        requires place { IsLogAt self.old.banks active self.old.log }
        ensures { self.new ≡ record self.old { active = active; target = target_after self.old.banks active; course = None; copies = erased_state self.old.geometry self.old.banks (target_after self.old.banks active) self.old.copies.numbers } }
    {
        let target = target_of(active, self.banks);
        self.copies.move_to(target);
        self.active = active;
        self.target = target;
        self.course = None;
    }
}
