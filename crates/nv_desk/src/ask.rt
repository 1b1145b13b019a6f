// Requests.
ghost use Rattle.std.specs.Prelude.{◌≡◌, ◌++◌, ◌∷◌, ◌≤◌, ◌↔◌, [], true, false, is_some, length, get_or, option_map, None, IsTrue, IfOk, IfSome, IsOk, IsSomeAnd, OnOk, OnErr, IsErrOf};
ghost use Rattle.block_machine.specs.Blocks.{asked_block, asked_content, desc_of, job_kind};
ghost use Rattle.block_machine.specs.Reply.{fits, reply_of};
ghost use Rattle.block_machine.specs.Steps.{asked};
ghost use Rattle.block_machine.specs.Legal.{IsAllowed, IsLegal, HasStore};
ghost use Rattle.nv_recorder.specs.Recorder.{keeps};
ghost use Rattle.nv_recorder.specs.Request.{request_lent};
ghost use Rattle.nv_desk.specs.Desk.{state_of, sweep_request};
ghost use Rattle.nv_desk.specs.Incoming.{is_at_once, request_in, IsLent, MayCome};
ghost use Rattle.nv_desk.specs.Places.{taken_from};

use crate::Desk;
use crate::effect::{Effect, change, effect_of};
use crate::incoming::{Incoming, add_ask};
use crate::places::Places;
use block_machine::nv_base::{Entry, Reply, Request};
use job_pending::Job;
use nv_recorder::{LentRequest, RequestKind};
use std::alloc::{AllocError, Global};
use thiserror::Error;

/// Why a request gets no reply.
#[derive(Clone, Copy, Debug, Error)]
pub enum AskFault {
    /// Not even its entry fits under the cap.
    #[error("the history has no room for the request: start a new stack over the same device")]
    NoRoom,
    /// No memory was found.
    #[error("there is no memory for the request, and nothing changed")]
    Memory,
}

impl From<AllocError> for AskFault {
    ghost use Rattle.nv_desk.specs.declared.ask.AskFault.TheVariants.{Memory};

    ghost from_gives = { λ _ fault. fault ≡ Memory };

    fn from(_: AllocError) -> AskFault {
        AskFault::Memory
    }
}

impl Desk {
    // Adds the entry of a request that changes nothing.
    #[inline(always)]
    #[tactic(auto, using(crate::proofs::Entries::memory_kept))]
    fn note(&mut self, caller: u8, incoming: Incoming<'_>, reply: Reply) -> Result<(), AllocError>
        requires allowed { IsAllowed self.old.config self.old.cap (state_of self.old) (Entry.Ask caller (request_in incoming) reply) }
        requires same { asked self.old.config (state_of self.old) (request_in incoming) reply ≡ state_of self.old }
        requires comes { MayCome self.old incoming }
        ensures ok { OnOk result (self.new ≡ record self.old { entries = self.old.entries ++ Entry.Ask caller (request_in incoming.entry) reply ∷ [] }) }
        ensures err { OnErr result (self.new ≡ self.old) }
        ensures lent { IsLent incoming.entry → IsOk result }
    {
        let reserved = self.kept.reserved() as u32;
        incoming.take_memory(&mut self.history, reserved)?;
        add_ask(&mut self.history, caller, incoming, reply);
        Ok(())
    }

    // Accepts a request that makes a job.
    #[tactic(auto, using(crate::proofs::Entries::memory_kept))]
    fn accept_job(&mut self, caller: u8, incoming: Incoming<'_>) -> Result<(), AllocError>
        requires kind { is_some (job_kind (request_in incoming)) ≡ true }
        requires allowed { IsAllowed self.old.config self.old.cap (state_of self.old) (Entry.Ask caller (request_in incoming) Reply.Accepted) }
        requires comes { MayCome self.old incoming }
        ensures ok { OnOk result (self.new ≡ record self.old { entries = self.old.entries ++ Entry.Ask caller (request_in incoming.entry) Reply.Accepted ∷ [] }) }
        ensures err { OnErr result (self.new ≡ self.old) }
        ensures lent { IsLent incoming.entry → IsOk result }
    {
        let _sizes = self.config.queue_sizes();
        let request = incoming.lent();
        let needed = self.needed(request);
        let reserved = self.kept.reserved() as u32 + needed;
        incoming.take_memory(&mut self.history, reserved)?;
        let asked_for = in_place(request, &mut self.places);
        let job = Job::accepted(self.history.len(), asked_for, needed);
        self.kept.accept(&self.config, job);
        add_ask(&mut self.history, caller, incoming, Reply::Accepted);
        Ok(())
    }

    // Accepts a request that changes a block at once, or cancels a WriteAll.
    #[tactic(auto, using(crate::proofs::Entries::memory_kept))]
    fn accept_change(&mut self, caller: u8, incoming: Incoming<'_>) -> Result<(), AllocError>
        requires kind { is_at_once (request_in incoming) ≡ true }
        requires allowed { IsAllowed self.old.config self.old.cap (state_of self.old) (Entry.Ask caller (request_in incoming) Reply.Accepted) }
        requires comes { MayCome self.old incoming }
        ensures ok { OnOk result (self.new ≡ record self.old { entries = self.old.entries ++ Entry.Ask caller (request_in incoming.entry) Reply.Accepted ∷ [] }) }
        ensures err { OnErr result (self.new ≡ self.old) }
        ensures lent { IsLent incoming.entry → IsOk result }
    {
        let reserved = self.kept.reserved() as u32;
        incoming.take_memory(&mut self.history, reserved)?;
        change(&mut self.kept, incoming.lent());
        add_ask(&mut self.history, caller, incoming, Reply::Accepted);
        Ok(())
    }

    // Accepts a WriteAll, or else a ReadAll.
    #[tactic(auto, using(crate::proofs::Entries::memory_kept))]
    fn accept_sweep(
        &mut self,
        caller: u8,
        incoming: Incoming<'_>,
        writes: bool,
    ) -> Result<(), AllocError>
        requires kind { request_in incoming ≡ sweep_request writes }
        requires allowed { IsAllowed self.old.config self.old.cap (state_of self.old) (Entry.Ask caller (request_in incoming) Reply.Accepted) }
        requires comes { MayCome self.old incoming }
        ensures ok { OnOk result (self.new ≡ record self.old { entries = self.old.entries ++ Entry.Ask caller (request_in incoming.entry) Reply.Accepted ∷ [] }) }
        ensures err { OnErr result (self.new ≡ self.old) }
        ensures lent { IsLent incoming.entry → IsOk result }
    {
        let needed = self.needed(incoming.lent());
        let reserved = self.kept.reserved() as u32 + needed;
        incoming.take_memory(&mut self.history, reserved)?;
        self.kept.begin_sweep(self.history.len(), writes, needed);
        add_ask(&mut self.history, caller, incoming, Reply::Accepted);
        Ok(())
    }

    // Accepts a request that nothing refuses.
    fn accept(&mut self, caller: u8, incoming: Incoming<'_>) -> Result<(), AllocError>
        requires allowed { IsAllowed self.old.config self.old.cap (state_of self.old) (Entry.Ask caller (request_in incoming) Reply.Accepted) }
        requires comes { MayCome self.old incoming }
        ensures ok { OnOk result (self.new ≡ record self.old { entries = self.old.entries ++ Entry.Ask caller (request_in incoming.entry) Reply.Accepted ∷ [] }) }
        ensures err { OnErr result (self.new ≡ self.old) }
        ensures lent { IsLent incoming.entry → IsOk result }
    {
        let effect = effect_of(incoming.lent());
        match effect {
            Effect::Job => self.accept_job(caller, incoming),
            Effect::Sweep { writes } => self.accept_sweep(caller, incoming, writes),
            Effect::Change => self.accept_change(caller, incoming),
        }
    }

    // Takes a request whose entry fits, and replies. It is a part of `ask` and of `enter`, which know how the request comes in.
    #[inline(always)]
    fn take(&mut self, caller: u8, incoming: Incoming<'_>) -> Result<Reply, AllocError>
        requires started { IsTrue (state_of self.old).started }
        requires caller { caller ≤ 15 }
        requires store { HasStore self.old.config (request_in incoming) }
        requires fits { fits self.old.config self.old.cap (state_of self.old) 1 ≡ true }
        requires comes { MayCome self.old incoming }
        ensures reply { IfOk result (λ reply. reply ≡ reply_of self.old.config self.old.cap (state_of self.old) (request_in incoming.entry)) }
        ensures ok { IfOk result (λ reply. self.new ≡ record self.old { entries = self.old.entries ++ Entry.Ask caller (request_in incoming.entry) reply ∷ [] }) }
        ensures legal { OnOk result (IsLegal self.old.config self.old.cap self.old.entries → IsLegal self.new.config self.new.cap self.new.entries) }
        ensures err { OnErr result (self.new ≡ self.old) }
        ensures lent { IsLent incoming.entry → IsOk result }
    {
        let reply = self.reply(incoming.lent());
        match reply {
            Reply::Accepted => {
                self.accept(caller, incoming)?;
                Ok(Reply::Accepted)
            }
            reply => {
                self.note(caller, incoming, reply)?;
                Ok(reply)
            }
        }
    }

    /// Takes a request of a caller, 0 to 15, and replies. It adds exactly one entry, whatever it replies, and takes all memory
    /// for the entries that an accepted job makes later. At Err nothing changed: `NoRoom` comes exactly where not even that
    /// entry fits under the cap.
    pub fn ask(&mut self, alloc: Global, caller: u8, request: Request) -> Result<Reply, AskFault>
        requires started { IsTrue (state_of self.old).started }
        requires caller { caller ≤ 15 }
        requires store { HasStore self.old.config request }
        ensures reply { IfOk result (λ reply. reply ≡ reply_of self.old.config self.old.cap (state_of self.old) request) }
        ensures ok { IfOk result (λ reply. self.new ≡ record self.old { entries = self.old.entries ++ Entry.Ask caller request reply ∷ [] }) }
        ensures legal { OnOk result (IsLegal self.old.config self.old.cap self.old.entries → IsLegal self.new.config self.new.cap self.new.entries) }
        ensures err { OnErr result (self.new ≡ self.old) }
        ensures no_room { IsErrOf result AskFault.NoRoom ↔ fits self.old.config self.old.cap (state_of self.old) 1 ≡ false }
    {
        if !self.fits(1) {
            return Err(AskFault::NoRoom);
        }
        let reply = self.take(caller, Incoming::Owned { alloc, request })?;
        Ok(reply)
    }

    /// Takes a request whose content is lent, of a caller, 0 to 15, where entries aren't kept, and replies as `ask` does. The content
    /// is at most as long as its block's; a request that brings none lends no bytes. It takes no memory: Ok comes exactly where its
    /// entry fits under the cap, and else `NoRoom`, and nothing changed.
    pub fn enter(&mut self, caller: u8, request: LentRequest<'_>) -> Result<Reply, AskFault>
        requires counted { keeps self.old.cap ≡ false }
        requires started { IsTrue (state_of self.old).started }
        requires caller { caller ≤ 15 }
        requires store { HasStore self.old.config (request_lent request) }
        requires content { length request.content.now ≤ (desc_of self.old.config (asked_block (request_lent request))).length }
        ensures reply { IfOk result (λ reply. reply ≡ reply_of self.old.config self.old.cap (state_of self.old) (request_lent request.entry)) }
        ensures ok { IfOk result (λ reply. self.new ≡ record self.old { entries = self.old.entries ++ Entry.Ask caller (request_lent request.entry) reply ∷ [] }) }
        ensures legal { OnOk result (IsLegal self.old.config self.old.cap self.old.entries → IsLegal self.new.config self.new.cap self.new.entries) }
        ensures err { OnErr result (self.new ≡ self.old) }
        ensures no_room { IsErrOf result AskFault.NoRoom ↔ fits self.old.config self.old.cap (state_of self.old) 1 ≡ false }
        ensures total { IsErrOf result AskFault.Memory → ⊥ }
    {
        if !self.fits(1) {
            return Err(AskFault::NoRoom);
        }
        let reply = self.take(caller, Incoming::Lent { request })?;
        Ok(reply)
    }
}

// A request that makes a job, with its content in its block's place.
fn in_place(request: LentRequest<'_>, places: &mut Places) -> Request
    requires kind { is_some (job_kind (request_lent request)) ≡ true }
    requires place { IfSome (asked_content (request_lent request)) (λ x. IsSomeAnd (get_or places.old (asked_block (request_lent request)) None) (λ bytes. length bytes ≡ length x.0)) }
    ensures request { result ≡ request_lent request.entry }
    ensures places { places.new ≡ taken_from places.old (asked_block (request_lent request.entry)) (option_map (λ x. x.0) (asked_content (request_lent request.entry))) }
{
    match request.kind {
        RequestKind::Read { block, ram } => Request::Read { block, ram },
        RequestKind::Write { block, store } => Request::Write {
            block,
            content: places.fill(block, request.content),
            store,
        },
        RequestKind::WriteRam { block, store } => Request::Write {
            block,
            content: None,
            store,
        },
        RequestKind::Restore { block, ram } => Request::Restore { block, ram },
        RequestKind::Erase { block } => Request::Erase { block },
        RequestKind::Invalidate { block } => Request::Invalidate { block },
        _ => Request::ReadAll,
    }
}
