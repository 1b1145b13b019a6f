// The changing operations of a device, each listed as it is made.
ghost use Rattle.std.specs.Prelude.{◌≡◌, ◌≤◌, true, false, None, is_some, IsSome, IfSome, take};
ghost use Rattle.std.specs.Option.{ForSome};
ghost use Rattle.fls_jobs.specs.Start.{IsIdle};
ghost use Rattle.fee_laws.specs.fee_log.Log.{work_in};
ghost use Rattle.fee_laws.specs.fee_log.Step.{IsStepAt, answer_of};
ghost use Rattle.fee_laws.specs.fee_switch.Banks.{is_worn_out};
ghost use Rattle.fee_laws.specs.fee_switch.Copy.{CanGoOn};
ghost use Rattle.fee_core.specs.Operations.{ChangesTarget, IsProgrammed};

use crate::asked::Asked;
use crate::content::Content;
use fee_laws::{Banks, LogStep};
use fls_jobs::Fls;
use fls_model::{Flash, FlashAnswer};
use nv_base::Trace;

/// Programs the next page of the record in work, whose content has this size, and lists that operation.
pub(crate) fn program_record<F: Flash>(
    fls: &mut Fls<F>,
    banks: &mut Banks,
    content: &Content,
    size: u16,
    operations: &mut Trace<Asked<F>>,
) -> LogStep
    requires active { is_some banks.old.active ≡ true }
    requires work { IsSome (work_in banks.old.log.tail) }
    requires size { ForSome (work_in banks.old.log.tail) (λ h. h.length ≡ size) }
    requires few { size ≤ 4096 }
    requires idle { IsIdle fls.old }
    requires geometry { fls.old.geometry ≡ banks.old.geometry }
    ensures programmed { IsProgrammed fls.old banks.old operations.old.items (take size content.now) (answer_of result) fls.new banks.new operations.new.items }
    ensures last { IsStepAt banks.old.log result }
{
    let driver = Trace::new().with(fls);
    let before = Trace::new().with(banks);
    let body = Trace::new().with(content);
    let step = banks.append_step(fls, content.front(size));
    let asked = Asked::make(driver, before, body, step.answer());
    *operations = operations.with(&asked);
    step
}

/// Makes the next operation of the open switch, which changes the flash, and lists it.
pub(crate) fn change_target<F: Flash>(
    fls: &mut Fls<F>,
    banks: &mut Banks,
    content: &Content,
    operations: &mut Trace<Asked<F>>,
) -> FlashAnswer
    requires course { is_some banks.old.course ≡ true }
    requires no_work { work_in banks.old.log.tail ≡ None }
    requires worn { is_worn_out banks.old.active ≡ false }
    requires ready { IfSome banks.old.course (CanGoOn banks.old) }
    requires idle { IsIdle fls.old }
    requires geometry { fls.old.geometry ≡ banks.old.geometry }
    ensures { ChangesTarget fls.old banks.old operations.old.items result fls.new banks.new operations.new.items }
{
    let driver = Trace::new().with(fls);
    let before = Trace::new().with(banks);
    let body = Trace::new().with(content);
    let answer = banks.step(fls);
    let asked = Asked::make(driver, before, body, answer);
    *operations = operations.with(&asked);
    answer
}
