// A job.
ghost use Rattle.std.specs.Prelude.{◌≡◌, ◌≤◌, ◌<◌, ◌+◌, ◌-◌, ◌++◌, ◌∷◌, ◌^◌, [], length, is_some, IfSome, option_map, Some, None, true, false, if◌then◌else◌};
ghost use Rattle.std.specs.Option.{option_map_or};
ghost use Rattle.block_machine.specs.Blocks.{asked_content, job_block, kind_of, is_in};
ghost use Rattle.block_machine.specs.Sweeps.{member_request};
ghost use Rattle.block_machine.specs.Steps.{picked_job};
ghost use Rattle.block_machine.specs.Results.{took_none};
ghost use Rattle.job_pending.specs.Take.{taken_with, result_without};

use crate::request::{asked_block, job_kind};
use crate::written::Written;
use crate::{Staged, Take};
use block_machine::nv_base::{Bytes, JobKind, ReqResult, Request};
use std::marker::Model;

/// A job on one block, from its acceptance, or as a member of a request on all blocks from its Pick, to its Post. Contracts
/// see the machine's.
#[derive(Drop)]
pub struct Job {
    number: u32,
    request: Request,
    member: bool,
    staged: Option<Staged>,
    reserved: u32,
    last: Option<Take>,
    written: Written,
}

impl Model for Job {
    ghost use Rattle.block_machine.specs.State.{Job as MachineJob};

    ghost Value = { MachineJob };

    ghost use Rattle.job_pending.specs.Job.{job_of};

    ghost view = { job_of };
}

impl Job {
    /// The job of a request that entry `number` accepts, with so many entries reserved for it.
    pub fn accepted(number: u32, request: Request, reserved: u32) -> Job
        ensures { result ≡ record { number = number; request = request; member = false; content = asked_content request; reserved = reserved; taken = None; written = [] } }
    {
        Job {
            number,
            request,
            member: false,
            staged: None,
            reserved,
            last: None,
            written: Written::none(),
        }
    }

    /// The job of a member of the request on all blocks that entry `number` accepted: the block is written from its RAM, or
    /// read to it.
    pub fn of_member(number: u32, block: u16, writes: bool, reserved: u32) -> Job
        ensures { result ≡ record { number = number; request = member_request writes block; member = true; content = None; reserved = reserved; taken = None; written = [] } }
    {
        Job {
            number,
            request: member_request(block, writes),
            member: true,
            staged: None,
            reserved,
            last: None,
            written: Written::none(),
        }
    }

    /// The number of the entry that accepted it.
    pub fn number(&self) -> u32
        ensures { result ≡ self.now.number }
    {
        self.number
    }

    /// What was asked for.
    pub fn request(&self) -> &Request
        ensures { result.now ≡ self.now.request }
    {
        &self.request
    }

    /// Its block.
    pub fn block(&self) -> u16
        ensures { result ≡ job_block self.now }
    {
        asked_block(&self.request)
    }

    /// What it does.
    pub fn kind(&self) -> JobKind
        ensures { result ≡ kind_of self.now }
    {
        job_kind(&self.request).unwrap_or(JobKind::Read)
    }

    /// Whether it is a member of a request on all blocks.
    pub fn is_member(&self) -> bool
        ensures { result ≡ self.now.member }
    {
        self.member
    }

    /// What it writes, if it has a content: the one that it took, or that its request brought.
    pub fn content(&self) -> Option<&[u8]>
        ensures { option_map (λ b. b.now) result ≡ option_map (λ x. x.0) self.now.content }
    {
        if let Some(staged) = &self.staged {
            return Some(staged.bytes.as_slice());
        }
        match &self.request {
            Request::Write {
                content: Some(bytes),
                ..
            } => Some(bytes.as_slice()),
            _ => None,
        }
    }

    /// Gives its content back, if it has one.
    pub fn into_content(self) -> Option<Bytes>
        ensures { result ≡ option_map (λ x. x.0) self.content }
    {
        let Job {
            request,
            staged,
            ..
        } = self;
        match staged {
            Some(Staged { bytes, .. }) => Some(bytes),
            None => content_of(request),
        }
    }

    /// The number of the store that its content is of, or 0.
    pub fn store(&self) -> u64
        ensures { result ≡ option_map_or (λ x. x.1) self.now.content 0 }
    {
        match &self.staged {
            Some(staged) => staged.store,
            None => 0,
        }
    }

    /// The entries that are still reserved for it.
    pub fn reserved(&self) -> u32
        ensures { result ≡ self.now.reserved }
    {
        self.reserved
    }

    /// Whether it was picked.
    pub fn was_picked(&self) -> bool
        ensures { result ≡ is_some self.now.taken }
    {
        self.last.is_some()
    }

    /// What it ends with, without an operation, where its last Pick got no content to write: each copy was refused, or too
    /// old.
    pub fn result_without_content(&self) -> Option<ReqResult>
        ensures { result ≡ result_without (took_none self.now.taken) }
    {
        match self.last {
            Some(Take::Refused { .. }) | Some(Take::Stale { .. }) => Some(ReqResult::NotOk),
            _ => None,
        }
    }

    /// How many instances it wrote since its last Pick.
    pub fn written(&self) -> u8
        ensures { result ≡ length self.now.written }
    {
        self.written.len()
    }

    /// Whether it wrote this one since then.
    pub fn has_written(&self, index: u8) -> bool
        ensures { result ≡ is_in self.now.written index }
    {
        self.written.contains(index)
    }

    /// It is picked with this, and the copy of what it takes, if one was made; it uses one of its entries and hands on so many
    /// more.
    pub fn pick(&mut self, take: Take, copy: Option<Bytes>, handed_on: u32)
        ensures { self.new ≡ picked_job (taken_with self.old.content (take, copy)) handed_on self.old }
    {
        self.reserved = self.reserved.saturating_sub(1).saturating_sub(handed_on);
        self.written = Written::none();
        self.last = Some(take);
        if let (Take::Copied { store }, Some(bytes)) = (take, copy) {
            self.staged = Some(Staged { bytes, store });
        }
    }

    /// An instance of it was written.
    pub fn wrote(&mut self, index: u8)
        requires { length self.old.written < 2 }
        ensures { self.new ≡ record self.old { reserved = self.old.reserved - 1; written = self.old.written ++ index ∷ [] } }
    {
        self.reserved = self.reserved.saturating_sub(1);
        self.written.add(index);
    }

    /// It is interrupted, and gets two entries more.
    pub fn wait_again(&mut self)
        requires { self.old.reserved + 2 < 2 ^ 32 }
        ensures { self.new ≡ record self.old { reserved = self.old.reserved + 2 } }
    {
        self.reserved += 2;
    }
}

// The content that a request brought.
fn content_of(request: Request) -> Option<Bytes>
    ensures { result ≡ option_map (λ x. x.0) (asked_content request) }
{
    match request {
        Request::Write { content, .. } => content,
        _ => None,
    }
}

fn member_request(block: u16, writes: bool) -> Request
    ensures { result ≡ member_request writes block }
{
    if writes {
        Request::Write {
            block,
            content: None,
            store: 0,
        }
    } else {
        Request::Read { block, ram: true }
    }
}
