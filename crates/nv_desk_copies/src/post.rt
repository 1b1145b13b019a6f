// Posts of the job in hand.
ghost use Rattle.std.specs.Prelude.{◌≡◌, Some, length, IfSome};
ghost use Rattle.block_machine.specs.State.{Job as MachineJob};
ghost use Rattle.block_machine.specs.Blocks.{desc_of, job_block, kind_of, names_ram};
ghost use Rattle.block_machine.specs.Results.{checks_id, checked_id};
ghost use Rattle.block_machine.specs.nv_base.declared.job.GivenFrom.TheVariants as GivenFrom;
ghost use Rattle.nv_desk.specs.Desk.{state_of};
ghost use Rattle.nv_desk.specs.Picks.{lent_or};
ghost use Rattle.nv_desk_copies.specs.Front.{StagesAll, AreSynchronized, CopiesStay};
ghost use Rattle.nv_desk_copies.specs.Posts.{MayPostNow, IsEndOf, IsPosted, answer_in, answer_of, block_read, is_read};

use crate::Staging;
use crate::given::{defaults_of, stage_given};
use crate::over::{End, hand_over};
use crate::staging::{given_if, is_given};
use block_machine::block_config::Config;
use block_machine::nv_base::{GivenFrom, JobKind, ReqResult};
use nv_desk::{Desk, Job, lent_or, names_ram};
use ram_blocks::SyncCalls;

/// Posts the job in hand, whose program ended with this result and source. It answers the job's block, where it is a read to the
/// caller's own buffer that gave a content.
#[tactic(auto, using(crate::proofs::Sizes::nothing_copied))]
pub fn post<C: SyncCalls>(
    desk: &mut Desk,
    staging: &mut Staging,
    answer: ReqResult,
    source: GivenFrom,
    content: &[u8],
    ops: u64,
    copies: &mut C,
) -> Option<u16>
    requires may { MayPostNow desk.old source content.now }
    requires staging { StagesAll desk.old.config staging.old }
    requires synchronized { AreSynchronized desk.old.config (C.told copies.old) }
    ensures posted { (j : MachineJob) → (state_of desk.old).hand ≡ Some j
        → IsPosted (IsEndOf desk.old j answer source content.now ops) (job_block j) (names_ram j.request) (answer_of desk.old.config (state_of desk.old) j answer source content.now) ops desk.old desk.new (C.told copies.old) (C.told copies.new) }
    ensures reads { (j : MachineJob) → (state_of desk.old).hand ≡ Some j → result ≡ block_read j (answer_of desk.old.config (state_of desk.old) j answer source content.now).1 }
    ensures room { staging.new.room ≡ staging.old.room }
    ensures stays { CopiesStay C.told C.is_store C.over copies.old copies.new }
{
    let Some(job) = desk.hand() else {
        return None;
    };
    let block = job.block();
    let ram = names_ram(job.request());
    let read = is_read(job.kind());
    let end = ended(desk, staging, job, answer, source, content);
    let bytes = lent_or(staging.bytes(), content);
    let reads = !ram && (read && end.gives);
    let (end, refused) = hand_over(desk.config(), bytes, block, ram, end, copies);
    desk.post(end.answer, given_if(end.gives, bytes), refused, ops);
    reads.then_some(block)
}

fn is_read(kind: JobKind) -> bool
    ensures { result ≡ is_read kind }
{
    matches!(kind, JobKind::Read)
}

// What the job in hand ends with. What it gives is staged, or it is the content of the device.
fn ended(
    desk: &Desk,
    staging: &mut Staging,
    job: &Job,
    answer: ReqResult,
    source: GivenFrom,
    content: &[u8],
) -> End
    requires whole { source ≡ GivenFrom.Device → length content.now ≡ (desc_of desk.now.config (job_block job.now)).length }
    requires staging { StagesAll desk.now.config staging.old }
    ensures answer { answer_in result.answer result.gives (lent_or content.now staging.new.bytes) ≡ answer_of desk.now.config (state_of desk.now) job.now answer source content.now }
    ensures whole { IfSome (answer_in result.answer result.gives (lent_or content.now staging.new.bytes)).1 (λ x. length x ≡ (desc_of desk.now.config (job_block job.now)).length) }
    ensures room { staging.new.room ≡ staging.old.room }
{
    let block = job.block();
    if let Some(answer) = job.result_without_content() {
        return End {
            answer,
            gives: false,
        };
    }
    let gives = stage_given(
        desk.config(),
        staging,
        block,
        desk.index(block),
        source,
        content,
    );
    if checks_id(job) {
        return checked(desk.config(), staging, answer, gives, content);
    }
    End { answer, gives }
}

// Whether block 1 is read in a request on all blocks.
fn checks_id(job: &Job) -> bool
    ensures { result ≡ checks_id job.now (kind_of job.now) }
{
    match job.kind() {
        JobKind::Read => job.is_member() && job.block() == 1,
        _ => false,
    }
}

// What block 1 ends with: as it was read where it gives the configuration id, else it is restored to that.
fn checked(
    config: &Config,
    staging: &mut Staging,
    answer: ReqResult,
    gives: bool,
    content: &[u8],
) -> End
    requires staging { StagesAll config.now staging.old }
    ensures answer { answer_in result.answer result.gives (lent_or content.now staging.new.bytes) ≡ checked_id (desc_of config.now 1).defaults (answer_in answer gives (lent_or content.now staging.old.bytes)) }
    ensures whole { IfSome (answer_in result.answer result.gives (lent_or content.now staging.new.bytes)).1 (λ x. length x ≡ (desc_of config.now 1).length) }
    ensures room { staging.new.room ≡ staging.old.room }
{
    let bytes = lent_or(staging.bytes(), content);
    let same = is_given(gives, bytes, defaults_of(config, 1));
    if same {
        return End { answer, gives };
    }
    let gives = stage_given(config, staging, 1, 0, GivenFrom::Defaults, content);
    End {
        answer: ReqResult::Restored,
        gives,
    }
}
