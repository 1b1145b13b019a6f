// The turns of the open job's record.
ghost use Rattle.std.specs.Prelude.{◌≡◌, ◌≢◌, true, Some, IsSome};
ghost use Rattle.nv_base.specs.declared.job.DeviceOp.TheVariants.{Read};
ghost use Rattle.fee_laws.specs.fee_log.Log.{work_in};
ghost use Rattle.fee_laws.specs.Record.{kind_of};
ghost use Rattle.fee_core.specs.Beginning.{begins_now};
ghost use Rattle.fee_core.specs.Turning.{IsUp, Waits};
ghost use Rattle.fee_core.specs.Whole.{TurnedTo};

use crate::Origin;
use crate::operations::program_record;
use crate::parts::FeeParts;
use fee_format::RecordKind;
use fee_laws::{FeeJob, LogStep};
use fls_model::Flash;
use memif::{DeviceTurn, JobResult};
use nv_base::DeviceOp;

// The kind of an operation's record. A read has none.
fn kind_of(op: DeviceOp) -> RecordKind
    requires writes { op ≢ Read }
    ensures { kind_of op ≡ Some result }
{
    match op {
        DeviceOp::Read => unreachable!(),
        DeviceOp::Write => RecordKind::Content,
        DeviceOp::Invalidate => RecordKind::Invalid,
        DeviceOp::Erase => RecordKind::Erased,
    }
}

impl<F: Flash, O: Origin> FeeParts<F, O> {
    // The next page of the open job's record, or a gate that is owed before it.
    pub(crate) fn turn_record(&mut self, job: FeeJob) -> DeviceTurn
        requires up { IsUp O.making O.entry self.old }
        requires job { self.old.parts.job ≡ Some job }
        requires work { IsSome (work_in self.old.parts.banks.log.tail) }
        ensures { TurnedTo O.making O.entry result self.old self.new }
    {
        let _active = self.banks.active();
        let step = program_record(
            &mut self.fls,
            &mut self.banks,
            &self.content,
            job.length,
            &mut self.operations,
        );
        self.fls.status();
        self.ops = self.ops.saturating_add(1);
        match step {
            LogStep::More => DeviceTurn::Worked,
            LogStep::Committed => {
                self.job = None;
                self.last = JobResult::JobOk;
                self.given = 0;
                DeviceTurn::Worked
            }
            LogStep::Failed => {
                self.faults = self.faults.saturating_add(1);
                self.job = None;
                self.last = JobResult::JobFailed;
                self.given = 0;
                DeviceTurn::Worked
            }
            LogStep::Off => {
                self.off = true;
                DeviceTurn::Off
            }
        }
    }

    // The open job's record begins, in memory alone, and then its first page, or the gate that is owed before it.
    pub(crate) fn turn_new_record(&mut self, job: FeeJob) -> DeviceTurn
        requires up { IsUp O.making O.entry self.old }
        requires waits { Waits self.old job }
        requires begins { begins_now self.old.reserve self.old.parts.banks job ≡ true }
        ensures { TurnedTo O.making O.entry result self.old self.new }
    {
        let _active = self.banks.active();
        let kind = kind_of(job.op);
        let Some(log) = self.banks.log() else {
            unreachable!()
        };
        let head = log.head_next(job.number, kind, job.length);
        self.banks.append_start(head);
        self.turn_record(job)
    }
}
