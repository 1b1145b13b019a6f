// The front.
ghost use Rattle.std.specs.Prelude.{◌≡◌, ◌-◌, ℕ, [], length, get_or, slice_set, IfOk, Some, None, option_copied};
ghost use Rattle.block_machine.specs.State.{Job as MachineJob};
ghost use Rattle.block_machine.specs.Blocks.{job_block, names_ram};
ghost use Rattle.block_machine.specs.Next.{next_of};
ghost use Rattle.nv_desk.specs.nv_desk_state.Next.{IsNextEntry};
ghost use Rattle.nv_desk.specs.Desk.{state_of};
ghost use Rattle.nv_desk_copies.specs.Front.{StagesAll, AreSynchronized, CopiesStay, given_at, given_in};
ghost use Rattle.nv_desk_copies.specs.Takes.{copies_out_next, IsCopied};
ghost use Rattle.nv_desk_copies.specs.Picks.{MayPickNow, PicksNext};
ghost use Rattle.nv_desk_copies.specs.Posts.{MayPostNow, MayPostSkipped, IsEndOf, IsPosted, IsPostedNext, answer_of, noted};

use crate::pick::pick;
use crate::post::post;
use crate::skipped::post_skipped;
use crate::staged::longest_staged;
use crate::{Staging, Unread};
use block_machine::block_config::Config;
use block_machine::nv_base::{Entry, GivenFrom, ReqResult};
use nv_desk::{Desk, Event, Last, NextEntry};
use ram_blocks::SyncCalls;
use std::alloc::{AllocError, Global};

/// The desk, with the memory for one content that a Pick copies out of synchronized RAM or a Post gives of the configuration, and the
/// reads that were not taken.
#[derive(Drop)]
pub struct Front {
    pub desk: Desk,
    pub staging: Staging,
    pub unread: Unread,
}

impl Front {
    /// The front of a configuration before the first start-up, with a history of at most `cap` entries.
    pub fn make(alloc: Global, config: Config, cap: u32) -> Result<Front, AllocError>
        ensures config { IfOk result (λ f. f.desk.config ≡ config) }
        ensures cap { IfOk result (λ f. f.desk.cap ≡ cap) }
        ensures entries { IfOk result (λ f. f.desk.entries ≡ []) }
        ensures prepared { IfOk result (λ f. f.desk.prepared ≡ 0) }
        ensures staging { IfOk result (λ f. StagesAll config f.staging) }
        ensures unread { IfOk result (λ f. (block : ℕ) → get_or f.unread block None ≡ None) }
    {
        let staging = Staging::make(alloc, longest_staged(&config))?;
        let unread = Unread::make(alloc, usize::from(config.blocks()) + 1)?;
        let desk = Desk::make(alloc, config, cap)?;
        Ok(Front {
            desk,
            staging,
            unread,
        })
    }

    /// Picks what comes next, which is this entry: a job, a member of a request on all blocks, or that request itself. For a write of
    /// synchronized RAM it copies a store that isn't older than the one that was asked for, in as many tries as are
    /// configured. It takes no memory.
    pub fn pick<C: SyncCalls>(&mut self, next: NextEntry, ops: u64, copies: &mut C)
        requires may { MayPickNow self.old.desk ops }
        requires next { IsNextEntry next (next_of self.old.desk.config (state_of self.old.desk)) }
        requires staging { StagesAll self.old.desk.config self.old.staging }
        requires synchronized { AreSynchronized self.old.desk.config (C.told copies.old) }
        ensures picks { PicksNext (λ block t. IsCopied (λ n x. C.is_store copies.new block n x × C.looked copies.old copies.new block n)
            self.old.desk.config block (C.told copies.old) (C.told copies.new) (copies_out_next self.old.desk.config (next_of self.old.desk.config (state_of self.old.desk))) t)
            ops self.old.desk self.new.desk (C.told copies.old) (C.told copies.new) }
        ensures room { self.new.staging.room ≡ self.old.staging.room }
        ensures unread { self.new.unread ≡ self.old.unread }
        ensures stays { CopiesStay C.told C.is_store C.over copies.old copies.new }
        ensures synchronized { AreSynchronized self.old.desk.config (C.told copies.new) }
    {
        pick(&mut self.desk, &mut self.staging, next, ops, copies);
    }

    /// Posts the job in hand, whose program ended with this result and source. `content` is what the device's last read
    /// gave, and counts only where that is the source. Where the last Pick got no content to write, the job is posted with 1
    /// whatever its program ended with. What is given to synchronized RAM is handed over, in as many tries as are
    /// configured. It takes no memory.
    pub fn post<C: SyncCalls>(
        &mut self,
        answer: ReqResult,
        source: GivenFrom,
        content: &[u8],
        ops: u64,
        copies: &mut C,
    )
        requires may { MayPostNow self.old.desk source content.now }
        requires staging { StagesAll self.old.desk.config self.old.staging }
        requires synchronized { AreSynchronized self.old.desk.config (C.told copies.old) }
        ensures posted { (j : MachineJob) → (state_of self.old.desk).hand ≡ Some j
            → IsPosted (IsEndOf self.old.desk j answer source content.now ops) (job_block j) (names_ram j.request) (answer_of self.old.desk.config (state_of self.old.desk) j answer source content.now) ops self.old.desk self.new.desk (C.told copies.old) (C.told copies.new) }
        ensures unread { (j : MachineJob) → (state_of self.old.desk).hand ≡ Some j
            → self.new.unread ≡ noted j (answer_of self.old.desk.config (state_of self.old.desk) j answer source content.now).1 (length self.old.desk.entries) self.old.unread }
        ensures room { self.new.staging.room ≡ self.old.staging.room }
        ensures stays { CopiesStay C.told C.is_store C.over copies.old copies.new }
        ensures synchronized { AreSynchronized self.old.desk.config (C.told copies.new) }
    {
        let number = self.desk.len();
        let read = post(
            &mut self.desk,
            &mut self.staging,
            answer,
            source,
            content,
            ops,
            copies,
        );
        if let Some(block) = read {
            self.unread.note(block, number);
        }
    }

    /// The Post without a Pick that comes next, which is this entry: of a member of a request on all blocks, or of id 0. Defaults that a member
    /// gives to synchronized RAM are handed over as by `post`. It takes no memory.
    pub fn post_skipped<C: SyncCalls>(&mut self, next: NextEntry, ops: u64, copies: &mut C)
        requires may { MayPostSkipped self.old.desk ops }
        requires next { IsNextEntry next (next_of self.old.desk.config (state_of self.old.desk)) }
        requires staging { StagesAll self.old.desk.config self.old.staging }
        requires synchronized { AreSynchronized self.old.desk.config (C.told copies.old) }
        ensures posted { IsPostedNext (next_of self.old.desk.config (state_of self.old.desk)) ops self.old.desk self.new.desk (C.told copies.old) (C.told copies.new) }
        ensures room { self.new.staging.room ≡ self.old.staging.room }
        ensures unread { self.new.unread ≡ self.old.unread }
        ensures stays { CopiesStay C.told C.is_store C.over copies.old copies.new }
        ensures synchronized { AreSynchronized self.old.desk.config (C.told copies.new) }
    {
        post_skipped(&mut self.desk, &mut self.staging, next, ops, copies);
    }

    /// Takes what the last read of a block to the caller's own buffer gave: the number of the Post that gave it, once. None
    /// exactly where no read gave something since it was taken last.
    pub fn take_read(&mut self, block: u16) -> Option<u32>
        ensures number { result ≡ get_or self.old.unread block None }
        ensures taken { self.new.unread ≡ slice_set self.old.unread block None }
        ensures desk { self.new.desk ≡ self.old.desk }
        ensures staging { self.new.staging ≡ self.old.staging }
    {
        self.unread.take(block)
    }

    /// What the last entry gave, where that is a Post that gave something.
    pub fn last_given(&self) -> Option<&[u8]>
        ensures { option_copied result ≡ given_at self.now.desk.entries (length self.now.desk.entries - 1) }
    {
        match self.desk.last()? {
            Last::Added(entry) => given_by(entry),
            Last::OfJob { event, content } => match event {
                Event::Post { .. } => content,
                Event::Pick { .. } | Event::Wrote { .. } => None,
            },
            Last::OfRequest {
                caller: _,
                request: _,
                reply: _,
            } => None,
            Last::Found { marks: _, ops: _ } => None,
        }
    }
}

// What a Post gave.
fn given_by(entry: &Entry) -> Option<&[u8]>
    ensures { option_copied result ≡ given_in entry.now }
{
    match entry {
        Entry::Post {
            given: Some(bytes),
            ..
        } => Some(bytes.as_slice()),
        _ => None,
    }
}
