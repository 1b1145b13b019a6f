// Picks.
ghost use Rattle.std.specs.Prelude.{◌≡◌, ℕ, List, Some, None, true};
ghost use Rattle.block_machine.specs.State.{Job as MachineJob, Sweep as MachineSweep};
ghost use Rattle.block_machine.specs.Blocks.{asked_store, desc_of, block_at, is_synchronized, job_block, kind_of};
ghost use Rattle.block_machine.specs.Legal.{TakesBy, TakesForWrite, TakesCopy};
ghost use Rattle.block_machine.specs.Sweeps.{member_job, member_kind};
ghost use Rattle.block_machine.specs.Next.{next_in, next_of, PickMember};
ghost use Rattle.nv_desk.specs.job_pending.Take.{taken_with};
ghost use Rattle.nv_desk.specs.nv_desk_state.Next.{IsNextEntry};
ghost use Rattle.nv_desk.specs.Desk.{state_of};
ghost use Rattle.nv_desk.specs.Picks.{lent_or, took_of};
ghost use Rattle.nv_desk_copies.specs.Front.{StagesAll, AreSynchronized, CopiesStay, OnlyRefusals};
ghost use Rattle.nv_desk_copies.specs.Takes.{copies_out_by, copies_out_for, copies_out_next, IsCopied};
ghost use Rattle.nv_desk_copies.specs.Picks.{MayPickNow, MayPickJob, IsAtPick, IsPicked, PicksNext};

use crate::Staging;
use crate::synchronized::{is_synchronized, tries};
use block_machine::block_config::Config;
use block_machine::nv_base::{JobKind, Request};
use nv_desk::{Desk, Job, NextEntry, Take, length};
use ram_blocks::{SyncCalls, Tried};

/// Picks what comes next, which is this.
#[tactic(auto, using(crate::proofs::Sizes::nothing_copied))]
pub fn pick<C: SyncCalls>(
    desk: &mut Desk,
    staging: &mut Staging,
    next: NextEntry,
    ops: u64,
    copies: &mut C,
)
    requires may { MayPickNow desk.old ops }
    requires next { IsNextEntry next (next_of desk.old.config (state_of desk.old)) }
    requires staging { StagesAll desk.old.config staging.old }
    requires synchronized { AreSynchronized desk.old.config (C.told copies.old) }
    ensures picks { PicksNext (λ block t. IsCopied (λ n x. C.is_store copies.new block n x × C.looked copies.old copies.new block n)
        desk.old.config block (C.told copies.old) (C.told copies.new) (copies_out_next desk.old.config (next_of desk.old.config (state_of desk.old))) t)
        ops desk.old desk.new (C.told copies.old) (C.told copies.new) }
    ensures room { staging.new.room ≡ staging.old.room }
    ensures stays { CopiesStay C.told C.is_store C.over copies.old copies.new }
{
    match next {
        NextEntry::PickJob => pick_job(desk, staging, ops, copies),
        NextEntry::PickMember { block } => pick_member(desk, staging, block, ops, copies),
        NextEntry::BeginSweep => desk.pick_sweep(ops),
        NextEntry::PostMember { .. } => {}
        NextEntry::EndSweep { .. } => {}
        NextEntry::Nothing => {}
    }
}

// Picks the next job.
fn pick_job<C: SyncCalls>(desk: &mut Desk, staging: &mut Staging, ops: u64, copies: &mut C)
    requires may { MayPickJob desk.old ops }
    requires staging { StagesAll desk.old.config staging.old }
    requires synchronized { AreSynchronized desk.old.config (C.told copies.old) }
    ensures picked { (j : MachineJob) → next_in desk.old.config (state_of desk.old).waiting ≡ Some j
        → IsPicked (λ t. IsCopied (λ n x. C.is_store copies.new (job_block j) n x × C.looked copies.old copies.new (job_block j) n) desk.old.config (job_block j) (C.told copies.old) (C.told copies.new) (copies_out_for desk.old.config j) t) (job_block j) ops desk.old desk.new }
    ensures room { staging.new.room ≡ staging.old.room }
    ensures counts { (j : MachineJob) → next_in desk.old.config (state_of desk.old).waiting ≡ Some j → OnlyRefusals (job_block j) (C.told copies.old) (C.told copies.new) }
    ensures stays { CopiesStay C.told C.is_store C.over copies.old copies.new }
{
    let Some(job) = desk.next_job() else {
        return;
    };
    let take = take_for(desk, staging, job, copies);
    desk.pick_job(take, staging.bytes(), ops);
}

// Picks the next member of a request on all blocks.
fn pick_member<C: SyncCalls>(
    desk: &mut Desk,
    staging: &mut Staging,
    block: u16,
    ops: u64,
    copies: &mut C,
)
    requires may { IsAtPick desk.old block ops }
    requires staging { StagesAll desk.old.config staging.old }
    requires synchronized { AreSynchronized desk.old.config (C.told copies.old) }
    ensures picked { (sw : MachineSweep) → next_of desk.old.config (state_of desk.old) ≡ PickMember sw block
        → IsPicked (λ t. IsCopied (λ n x. C.is_store copies.new block n x × C.looked copies.old copies.new block n) desk.old.config block (C.told copies.old) (C.told copies.new) (copies_out_for desk.old.config (member_job desk.old.config sw block)) t) block ops desk.old desk.new }
    ensures room { staging.new.room ≡ staging.old.room }
    ensures counts { OnlyRefusals block (C.told copies.old) (C.told copies.new) }
    ensures stays { CopiesStay C.told C.is_store C.over copies.old copies.new }
{
    let take = take_for_member(desk, staging, block, copies);
    desk.pick_member(block, take, staging.bytes(), ops);
}

// What the Pick of a job takes. A copy of synchronized RAM is staged.
#[tactic(auto, using(crate::proofs::Sizes::nothing_copied))]
fn take_for<C: SyncCalls>(desk: &Desk, staging: &mut Staging, job: &Job, copies: &mut C) -> Take
    requires staging { StagesAll desk.now.config staging.old }
    requires synchronized { AreSynchronized desk.now.config (C.told copies.old) }
    ensures taken { TakesBy (desc_of desk.now.config (job_block job.now)) (block_at (state_of desk.now) (job_block job.now)) job.now (kind_of job.now) (taken_with job.now.content (took_of result (lent_or (block_at (state_of desk.now) (job_block job.now)).ram staging.new.bytes))) }
    ensures copied { IsCopied (λ n x. C.is_store copies.new (job_block job.now) n x × C.looked copies.old copies.new (job_block job.now) n)
        desk.now.config (job_block job.now) (C.told copies.old) (C.told copies.new) (copies_out_for desk.now.config job.now) (taken_with job.now.content (took_of result (lent_or (block_at (state_of desk.now) (job_block job.now)).ram staging.new.bytes))) }
    ensures room { staging.new.room ≡ staging.old.room }
    ensures counts { OnlyRefusals (job_block job.now) (C.told copies.old) (C.told copies.new) }
    ensures stays { CopiesStay C.told C.is_store C.over copies.old copies.new }
{
    match job.kind() {
        JobKind::Write => {
            if job.content().is_some() {
                return Take::Own;
            }
            let asked = asked_store(job.request());
            take_ram(desk, staging, job.block(), asked, copies)
        }
        _ => Take::Nothing,
    }
}

// What the Pick of a member takes: a WriteAll takes of RAM, a ReadAll takes nothing.
#[tactic(auto, using(crate::proofs::Sizes::nothing_copied))]
fn take_for_member<C: SyncCalls>(
    desk: &Desk,
    staging: &mut Staging,
    block: u16,
    copies: &mut C,
) -> Take
    requires staging { StagesAll desk.now.config staging.old }
    requires synchronized { AreSynchronized desk.now.config (C.told copies.old) }
    ensures taken { (sw : MachineSweep) → (state_of desk.now).sweep ≡ Some sw → TakesBy (desc_of desk.now.config block) (block_at (state_of desk.now) block) (member_job desk.now.config sw block) (member_kind sw.writes) (taken_with None (took_of result (lent_or (block_at (state_of desk.now) block).ram staging.new.bytes))) }
    ensures copied { (sw : MachineSweep) → (state_of desk.now).sweep ≡ Some sw
        → IsCopied (λ n x. C.is_store copies.new block n x × C.looked copies.old copies.new block n) desk.now.config block
        (C.told copies.old) (C.told copies.new) (copies_out_by (member_kind sw.writes) None (is_synchronized (desc_of desk.now.config block).ram)) (taken_with None (took_of result (lent_or (block_at (state_of desk.now) block).ram staging.new.bytes))) }
    ensures room { staging.new.room ≡ staging.old.room }
    ensures counts { OnlyRefusals block (C.told copies.old) (C.told copies.new) }
    ensures stays { CopiesStay C.told C.is_store C.over copies.old copies.new }
{
    if desk.sweep_writes() {
        take_ram(desk, staging, block, 0, copies)
    } else {
        Take::Nothing
    }
}

// What a write takes of a block's RAM: a copy of a store that isn't older than `asked` where the RAM is synchronized, which is
// staged, else the RAM that the manager keeps, where it is.
#[tactic(auto, using(crate::proofs::Sizes::nothing_copied))]
fn take_ram<C: SyncCalls>(
    desk: &Desk,
    staging: &mut Staging,
    block: u16,
    asked: u64,
    copies: &mut C,
) -> Take
    requires staging { StagesAll desk.now.config staging.old }
    requires synchronized { AreSynchronized desk.now.config (C.told copies.old) }
    ensures taken { (j : MachineJob) → asked_store j.request ≡ asked → TakesForWrite (desc_of desk.now.config block) (block_at (state_of desk.now) block) j None (is_synchronized (desc_of desk.now.config block).ram) (taken_with None (took_of result (lent_or (block_at (state_of desk.now) block).ram staging.new.bytes))) }
    ensures copied { IsCopied (λ n x. C.is_store copies.new block n x × C.looked copies.old copies.new block n) desk.now.config block (C.told copies.old) (C.told copies.new) (is_synchronized (desc_of desk.now.config block).ram) (taken_with None (took_of result (lent_or (block_at (state_of desk.now) block).ram staging.new.bytes))) }
    ensures room { staging.new.room ≡ staging.old.room }
    ensures counts { OnlyRefusals block (C.told copies.old) (C.told copies.new) }
    ensures stays { CopiesStay C.told C.is_store C.over copies.old copies.new }
{
    if is_synchronized(desk.config(), block) {
        take_copy(desk.config(), staging, block, asked, copies)
    } else {
        staging.clear();
        Take::Copied { store: 0 }
    }
}

// What it takes by copies.
fn take_copy<C: SyncCalls>(
    config: &Config,
    staging: &mut Staging,
    block: u16,
    asked: u64,
    copies: &mut C,
) -> Take
    requires copies { is_synchronized (desc_of config.now block).ram ≡ true }
    requires staging { StagesAll config.now staging.old }
    requires synchronized { AreSynchronized config.now (C.told copies.old) }
    ensures taken { (ram : List ℕ) → TakesCopy (desc_of config.now block) asked (taken_with None (took_of result (lent_or ram staging.new.bytes))) }
    ensures copied { (ram : List ℕ) → IsCopied (λ n x. C.is_store copies.new block n x × C.looked copies.old copies.new block n) config.now block (C.told copies.old) (C.told copies.new) true (taken_with None (took_of result (lent_or ram staging.new.bytes))) }
    ensures room { staging.new.room ≡ staging.old.room }
    ensures counts { OnlyRefusals block (C.told copies.old) (C.told copies.new) }
    ensures stays { CopiesStay C.told C.is_store C.over copies.old copies.new }
{
    let count = tries(config, block);
    let bytes = usize::from(length(config, block));
    match staging.copy_out(copies, block, bytes, asked, u16::from(count)) {
        Tried::Got { number } => Take::Copied { store: number },
        Tried::Refused => Take::Refused { count },
        Tried::Stale { got } => Take::Stale { asked, got, count },
    }
}

// The store that a write of RAM asks for, or 0.
fn asked_store(request: &Request) -> u64
    ensures { result ≡ asked_store request.now }
{
    match request {
        Request::Write {
            content: None,
            store,
            ..
        } => *store,
        _ => 0,
    }
}
