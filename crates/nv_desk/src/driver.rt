// The driver's entries.
ghost use Rattle.std.specs.Prelude.{◌≡◌, ◌≤◌, ◌<◌, ◌+◌, ◌++◌, ◌∷◌, [], length, unwrap_or, option_copied, option_map, Some, IfSome};
ghost use Rattle.std.specs.Option.{option_and_then, option_map_or};
ghost use Rattle.block_machine.specs.Blocks.{job_block, mark_of};
ghost use Rattle.block_machine.specs.Legal.{IsDriving};
ghost use Rattle.block_machine.specs.nv_base.declared.mark.Mark.TheVariants as Mark;
ghost use Rattle.nv_desk.specs.Desk.{state_of};
ghost use Rattle.nv_desk.specs.Driver.{MayAdd, MayEnd, block_now, mark_now};
ghost use Rattle.nv_desk.specs.Rooms.{CanNote, with_entry};
ghost use Rattle.nv_recorder.specs.Event.{mark_of as mark_with};

use crate::Desk;
use crate::memory::{add, note};
use block_machine::nv_base::{Entry, Instance, JobKind, ReqResult};
use job_pending::PendingJobs;
use nv_recorder::{Event, MarkKind, Recorder};

impl Desk {
    /// The power is off. It takes no memory.
    pub fn off(&mut self, ops: u64)
        requires { IsDriving (state_of self.old) ops }
        ensures { self.new ≡ record self.old { entries = self.old.entries ++ Entry.Off ops ∷ [] } }
    {
        self.kept.go_off();
        add(&mut self.history, Entry::Off { ops });
    }

    /// The job in hand wrote its mark to an instance. It takes no memory.
    pub fn wrote(&mut self, instance: Instance, ops: u64)
        requires { MayAdd self.old (Entry.Wrote instance (mark_now (state_of self.old)) ops) }
        ensures { self.new ≡ record self.old { entries = self.old.entries ++ Entry.Wrote instance (mark_now (state_of self.old)) ops ∷ [] } }
    {
        let (mark, content) = mark_in_hand(&self.kept.jobs);
        let event = Event::Wrote {
            instance,
            mark,
            ops,
        };
        note(&mut self.history, event, content);
        self.kept.wrote(instance.index);
    }

    /// The job in hand ends with this result, and gives a content of its block's length or nothing. `refused` counts the
    /// copies of it that were refused. Whatever the result, what is kept goes on. It takes no memory.
    pub fn post(&mut self, answer: ReqResult, given: Option<&[u8]>, refused: u8, ops: u64)
        requires { MayEnd self.old (option_copied given) }
        ensures { self.new ≡ record self.old {
          entries = self.old.entries ++ Entry.Post (block_now (state_of self.old)) answer
              (option_copied given.entry) refused ops ∷ [];
        } }
    {
        let block = block_in_hand(&self.kept.jobs);
        let content = self.kept.end(&self.config, answer, given);
        self.places.put(block, content);
        add_post(&mut self.history, block, answer, given, refused, ops);
    }
}

/// Adds a Post, with what it gives.
pub fn add_post(
    history: &mut Recorder,
    block: u16,
    answer: ReqResult,
    given: Option<&[u8]>,
    refused: u8,
    ops: u64,
)
    requires { CanNote history.old (option_copied given) }
    ensures { history.new ≡ with_entry history.old (Entry.Post block answer (option_copied given.entry) refused ops) }
{
    let event = Event::Post {
        block,
        result: answer,
        refused,
        ops,
    };
    note(history, event, given);
}

// The block of the job in hand, or 0.
fn block_in_hand(jobs: &PendingJobs) -> u16
    ensures { result ≡ option_map_or job_block jobs.now.hand 0 }
{
    match jobs.hand() {
        Some(job) => job.block(),
        None => 0,
    }
}

// The mark that the job in hand writes, and its content, if it has one.
fn mark_in_hand(jobs: &PendingJobs) -> (MarkKind, Option<&[u8]>)
    ensures mark { mark_with result.0 (option_copied result.1) ≡ unwrap_or (option_and_then mark_of jobs.now.hand) Mark.Erased }
    ensures content { IfSome (option_copied result.1) (λ x. option_map (λ y. y.0) (option_and_then (λ j. j.content) jobs.now.hand) ≡ Some x) }
{
    let Some(job) = jobs.hand() else {
        return (MarkKind::Erased, None);
    };
    match (job.kind(), job.content()) {
        (JobKind::Write, Some(content)) => (MarkKind::Content, Some(content)),
        (JobKind::Invalidate, _) => (MarkKind::Invalid, None),
        _ => (MarkKind::Erased, None),
    }
}
