// The room of records.
ghost use Rattle.std.specs.Prelude.{◌≡◌, ◌≤◌, ◌+◌, nat_le, is_some, Some, None, IfSome};
ghost use Rattle.nv_base.specs.Pages.{record_pages_of};
ghost use Rattle.fee_laws.specs.fee_log.Index.{clear_flags};
ghost use Rattle.fee_laws.specs.fee_log.Log.{work_in};
ghost use Rattle.fee_laws.specs.fee_told.Figures.{ready_of, turns_owed};
ghost use Rattle.fee_course.specs.declared.course.Course.TheVariants.{Erase};
ghost use Rattle.fee_laws.specs.fee_switch.Banks.{begun_again, left_of};
ghost use Rattle.fee_laws.specs.fee_switch_laws.Space.{free_pages};
ghost use Rattle.fee_laws.specs.Inside.{IsActiveOf};
ghost use Rattle.fee_laws.specs.Record.{head_of};
ghost use Rattle.fee_laws.specs.Work.{pages_of_op, fits_in, begins_next, turns_beside, switch_turns, is_waiting, takes_append, seal_turns, pages_left, is_owed};
ghost use Rattle.fee_core.specs.Beginning.{begins_now};

use fee_course::Course;
use fee_format::pages_of;
use fee_laws::{Banks, FeeJob, Phase};
use nv_base::DeviceOp;

/// The pages of an operation's record, none of a read.
pub(crate) fn pages_of_op(page: u32, op: DeviceOp, length: u16) -> u32
    requires low { 16 ≤ page }
    requires high { page ≤ 256 }
    ensures { result ≡ pages_of_op page op length }
{
    match op {
        DeviceOp::Read => 0,
        DeviceOp::Write => pages_of(length, page),
        DeviceOp::Invalidate | DeviceOp::Erase => pages_of(0, page),
    }
}

// The pages of a job's record.
fn pages_of_job(banks: &Banks, job: FeeJob) -> u32
    ensures { result ≡ pages_of_op banks.now.geometry.page job.op job.length }
{
    pages_of_op(banks.geometry().page, job.op, job.length)
}

/// The free pages of the active bank, none without one.
pub(crate) fn free_pages(banks: &Banks) -> u32
    ensures { result ≡ free_pages banks.now }
{
    match banks.log() {
        Some(log) => log.free_pages(),
        None => 0,
    }
}

/// The pages of urgent writes that are ready where no job is open: the free ones of those that are kept, all of these while
/// a target is sealed.
pub(crate) fn ready(banks: &Banks, reserve: u32) -> u32
    ensures { result ≡ ready_of reserve (nat_le 1 (seal_turns banks.now.course)) (free_pages banks.now) }
{
    match banks.phase() {
        Phase::Seal | Phase::Doubtful => reserve,
        _ => reserve.min(free_pages(banks)),
    }
}

/// Whether a record is in work.
pub(crate) fn is_appending(banks: &Banks) -> bool
    requires { IsActiveOf banks.now banks.now.active }
    ensures { result ≡ is_some (work_in banks.now.log.tail) }
{
    match banks.log() {
        Some(log) => log.work().is_some(),
        None => false,
    }
}

/// Whether a job's record has room: an urgent one in all free pages, any other beside those that are kept.
pub(crate) fn has_room(banks: &Banks, job: FeeJob, reserve: u32) -> bool
    ensures { result ≡ fits_in reserve banks.now job }
{
    let kept = if job.urgent { 0 } else { reserve };
    u64::from(pages_of_job(banks, job)) + u64::from(kept) <= u64::from(free_pages(banks))
}

/// Whether a job has a record that isn't begun.
pub(crate) fn is_waiting(banks: &Banks, job: FeeJob) -> bool
    requires { IsActiveOf banks.now banks.now.active }
    ensures { result ≡ is_waiting banks.now job }
{
    pages_of_job(banks, job) >= 1 && !is_appending(banks)
}

// Whether an append is taken: but while a target is sealed.
fn takes_append(banks: &Banks) -> bool
    ensures { result ≡ takes_append banks.now.course }
{
    match banks.phase() {
        Phase::Seal | Phase::Doubtful => false,
        _ => true,
    }
}

/// Whether an urgent write that has room begins in its next turn.
pub(crate) fn begins_next(banks: &Banks, job: FeeJob) -> bool
    requires { IsActiveOf banks.now banks.now.active }
    ensures { result ≡ begins_next banks.now job }
{
    takes_append(banks) && job.urgent && is_waiting(banks, job) && has_room(banks, job, 0)
}

/// Whether the record of a job that waits begins in this turn: with no switch open where it has room, and else where it is an
/// urgent one that may.
pub(crate) fn begins_now(banks: &Banks, job: FeeJob, reserve: u32) -> bool
    requires { IsActiveOf banks.now banks.now.active }
    ensures { result ≡ begins_now reserve banks.now job }
{
    if banks.phase() == Phase::None {
        has_room(banks, job, reserve)
    } else {
        begins_next(banks, job)
    }
}

// The turns of a switch that would begin now.
fn whole_switch(banks: &Banks) -> u64
    requires active { IsActiveOf banks.now banks.now.active }
    requires clear { banks.now.log.flags ≡ clear_flags banks.now.log.numbers }
    requires idle { work_in banks.now.log.tail ≡ None }
    ensures { result ≡ left_of (begun_again banks.now (Erase 0)) }
{
    let geometry = banks.geometry();
    let sectors = banks.bank_sectors();
    match banks.log() {
        Some(log) => {
            let (numbers, places, flags) = log.lists();
            let course = Course::Erase { done: 0 };
            course.left(geometry.page, sectors, numbers, places, flags, None)
        }
        None => u64::from(sectors) + 2,
    }
}

// The turns of the switch that is open, also where the record of a job begins beside it.
fn turns_beside(banks: &Banks, job: FeeJob) -> u64
    requires { IsActiveOf banks.now banks.now.active }
    ensures { result ≡ turns_beside banks.now (Some job) }
{
    if begins_next(banks, job) {
        banks.left_beside(job.number)
    } else {
        banks.left()
    }
}

/// The turns of the switch that is open, or that a job needs.
pub(crate) fn switch_turns(banks: &Banks, job: FeeJob, reserve: u32) -> u64
    requires active { IsActiveOf banks.now banks.now.active }
    requires clear { banks.now.course ≡ None → banks.now.log.flags ≡ clear_flags banks.now.log.numbers }
    ensures { result ≡ switch_turns reserve banks.now (Some job) banks.now.course }
{
    if banks.phase() != Phase::None {
        return turns_beside(banks, job);
    }
    if is_waiting(banks, job) && !has_room(banks, job, reserve) {
        whole_switch(banks)
    } else {
        0
    }
}

/// The turns of the pages of a job's record that are left, and of a gate that is owed before it.
pub(crate) fn record_turns(banks: &Banks, job: FeeJob) -> u64
    requires active { IsActiveOf banks.now banks.now.active }
    requires work { IfSome (work_in banks.now.log.tail) (λ h. h ≡ head_of banks.now.log h.kind job) }
    requires pages { pages_of_op banks.now.geometry.page job.op job.length ≡ record_pages_of job.length banks.now.geometry.page }
    ensures { result ≡ pages_left banks.now.geometry.page (pages_of_op banks.now.geometry.page job.op job.length) banks.now.log.tail + turns_owed (is_owed banks.now.log.tail) }
{
    let page = banks.geometry().page;
    let pages = u64::from(pages_of_op(page, job.op, job.length));
    match banks.log() {
        Some(log) if log.work().is_some() => u64::from(log.pages_left()),
        Some(log) => pages + u64::from(log.owes_gate()),
        None => pages,
    }
}
