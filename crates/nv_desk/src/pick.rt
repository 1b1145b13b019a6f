// The Pick of a job.
ghost use Rattle.std.specs.Prelude.{◌≡◌, ◌≤◌, ◌<◌, ◌+◌, ◌++◌, ◌∷◌, [], ℕ, length, get_or, Some, None, IfSome, IsSomeAnd, option_copied};
ghost use Rattle.block_machine.specs.State.{Job as MachineJob};
ghost use Rattle.block_machine.specs.Blocks.{job_block, kind_of};
ghost use Rattle.block_machine.specs.Next.{next_in};
ghost use Rattle.job_pending.specs.Take.{content_taken, taken_with};
ghost use Rattle.nv_desk.specs.Desk.{state_of};
ghost use Rattle.nv_desk.specs.Picks.{MayPickNext, CanTake, content_in, copied_of, lent_or, next_ram, own_first, took_of};
ghost use Rattle.nv_desk.specs.Places.{taken_from};
ghost use Rattle.nv_desk.specs.Rooms.{CanNote, with_entry};
ghost use Rattle.nv_recorder.specs.Event.{taken_of};

use crate::Desk;
use crate::memory::note;
use crate::places::Places;
use block_machine::nv_base::{Bytes, Entry, JobKind};
use job_pending::{Job, Take};
use nv_recorder::{Event, Recorder, TakenKind};

impl Desk {
    /// The next job comes in hand with what it takes of a content that is lent, or, where none is, of its block's RAM; one that is
    /// in hand is interrupted. It takes no memory.
    pub fn pick_job(&mut self, take: Take, lent: Option<&[u8]>, ops: u64)
        requires { MayPickNext self.old (took_of take (lent_or (next_ram self.old) (option_copied lent))) ops }
        ensures { (j : MachineJob) → next_in self.old.config (state_of self.old).waiting ≡ Some j
            → self.new ≡ record self.old {
              entries = self.old.entries ++ Entry.Pick (job_block j) (kind_of j)
                  (taken_with j.content (took_of take (lent_or (next_ram self.old) (option_copied lent.entry)))) ops ∷ [];
            } }
    {
        self.kept.blocks.fills_its_rooms();
        let Some(next) = self.kept.jobs.next() else {
            return;
        };
        let block = next.block();
        let job = next.kind();
        let take = own_first(take, next);
        let lent = lent_or(lent, self.kept.blocks.ram(block));
        let (taken, content) = taken_of(take, lent, Some(next));
        add_pick(&mut self.history, block, job, taken, content, ops);
        let copy = copy_of(take, lent, block, &mut self.places);
        self.kept.pick(&self.config, take, copy);
    }
}

/// Adds a Pick, with what it takes.
pub fn add_pick(
    history: &mut Recorder,
    block: u16,
    job: JobKind,
    taken: TakenKind,
    content: Option<&[u8]>,
    ops: u64,
)
    requires { CanNote history.old (option_copied content) }
    ensures { history.new ≡ with_entry history.old (Entry.Pick block job (taken_of taken (option_copied content.entry)) ops) }
{
    let event = Event::Pick {
        block,
        job,
        taken,
        ops,
    };
    note(history, event, content);
}

/// What is lent, or RAM where nothing is.
pub fn lent_or<'a>(lent: Option<&'a [u8]>, ram: &'a [u8]) -> &'a [u8]
    ensures { result.now ≡ lent_or ram.now (option_copied lent.entry) }
{
    match lent {
        Some(lent) => lent,
        None => ram,
    }
}

// What a job takes that has a content of its own.
fn own_first(take: Take, job: &Job) -> Take
    ensures { result ≡ own_first take job.now.content }
{
    match (take, job.content()) {
        (Take::Copied { .. }, Some(_)) => Take::Own,
        _ => take,
    }
}

/// A copy of what is lent, where it is taken, in its block's place. It takes no memory.
pub fn copy_of(take: Take, lent: &[u8], block: u16, places: &mut Places) -> Option<Bytes>
    requires { IfSome (copied_of take lent.now) (λ x. IsSomeAnd (get_or places.old block None) (λ bytes. length bytes ≡ length x)) }
    ensures copy { result ≡ copied_of take lent.now }
    ensures places { places.new ≡ taken_from places.old block (copied_of take lent.now) }
{
    match take {
        Take::Copied { .. } => places.fill(block, lent),
        Take::Nothing | Take::Own | Take::Refused { .. } | Take::Stale { .. } => None,
    }
}

/// What a Pick takes of what is lent, where its job has no content of its own.
pub fn taken_of_lent(take: Take, lent: &[u8]) -> (TakenKind, Option<&[u8]>)
    ensures taken { taken_of result.0 (option_copied result.1) ≡ taken_with None (took_of take lent.now) }
    ensures fits { (longest : ℕ) → CanTake longest None (took_of take lent.now) → IfSome (option_copied result.1) (λ x. length x ≤ longest) }
{
    taken_of(take, lent, None)
}

// What the Pick of a job takes, or of none that has a content of its own.
fn taken_of<'a>(take: Take, lent: &'a [u8], job: Option<&'a Job>) -> (TakenKind, Option<&'a [u8]>)
    ensures taken { taken_of result.0 (option_copied result.1) ≡ taken_with (content_in (option_copied job.entry)) (took_of take lent.now) }
    ensures fits { (longest : ℕ) → CanTake longest (content_in (option_copied job.entry)) (took_of take lent.now) → IfSome (option_copied result.1) (λ x. length x ≤ longest) }
{
    match take {
        Take::Nothing => (TakenKind::Nothing, None),
        Take::Own => own_of(job),
        Take::Copied { store } => (TakenKind::Content { store }, Some(lent)),
        Take::Refused { count } => (TakenKind::Refused { count }, None),
        Take::Stale { asked, got, count } => (TakenKind::Stale { asked, got, count }, None),
    }
}

// The content that a job has already.
fn own_of(job: Option<&Job>) -> (TakenKind, Option<&[u8]>)
    ensures taken { taken_of result.0 (option_copied result.1) ≡ content_taken (content_in (option_copied job.entry)) }
    ensures fits { (longest : ℕ) → IfSome (content_in (option_copied job.entry)) (λ x. length x.0 ≤ longest) → IfSome (option_copied result.1) (λ x. length x ≤ longest) }
{
    let Some(job) = job else {
        return (TakenKind::Nothing, None);
    };
    match job.content() {
        Some(content) => (TakenKind::Content { store: job.store() }, Some(content)),
        None => (TakenKind::Nothing, None),
    }
}
