// When each refusal holds of a request, and the reply.
ghost use Rattle.std.specs.Prelude.{◌≡◌, ◌≤◌, ◌<◌, ◌^◌, ◌+◌, ◌↔◌, false, true, not, length, Some, None, IsTrue, IfErr, OnOk};
ghost use Rattle.std.specs.Option.{option_map_or};
ghost use Rattle.block_machine.specs.Blocks.{asked_block, block_at, desc_of, status_of, is_pending, names_rom, is_immediate};
ghost use Rattle.block_machine.specs.Words.{Write};
ghost use Rattle.block_machine.specs.Reply.{holds, needed, fits, answer_to, reply_of, can_cancel};
ghost use Rattle.block_states.specs.States.{facts_of};
ghost use Rattle.nv_desk.specs.Desk.{state_of};
ghost use Rattle.nv_desk.specs.Refusals.{first_refusal};
ghost use Rattle.nv_recorder.specs.Request.{request_lent};

use crate::Desk;
use crate::tested::tested;
use block_machine::nv_base::{Refusal, Reply, ReqResult};
use block_states::BlockFacts;
use nv_desk_state::{
    datasets, has_no_defaults, has_no_ram, is_dataset, is_once, is_permanent, length, priority,
    records, stored,
};
use nv_recorder::{LentRequest, RequestKind};

impl Desk {
    fn is_unknown(&self, request: LentRequest<'_>, id: u16) -> bool
        requires { id ≡ asked_block (request_lent request) }
        ensures { result ≡ holds self.now.config self.now.cap (state_of self.now) Refusal.UnknownBlock (request_lent request.entry) }
    {
        match request.kind {
            RequestKind::Status { block } => self.config.blocks() < block,
            _ => id == 0 || self.config.blocks() < id,
        }
    }

    fn is_wrong_type(&self, request: LentRequest<'_>, id: u16) -> bool
        requires { id ≡ asked_block (request_lent request) }
        ensures { result ≡ holds self.now.config self.now.cap (state_of self.now) Refusal.WrongType (request_lent request.entry) }
    {
        match request.kind {
            RequestKind::SetIndex { block, .. } | RequestKind::GetIndex { block } => {
                !is_dataset(&self.config, block)
            }
            RequestKind::Restore { block, .. } => is_dataset(&self.config, block),
            _ => id == 1,
        }
    }

    fn is_bad_index(&self, request: LentRequest<'_>) -> bool
        ensures { result ≡ holds self.now.config self.now.cap (state_of self.now) Refusal.BadIndex (request_lent request.entry) }
    {
        match request.kind {
            RequestKind::SetIndex { block, index } => {
                datasets(&self.config, block) <= u64::from(index)
            }
            _ => false,
        }
    }

    fn is_bad_length(&self, request: LentRequest<'_>, id: u16) -> bool
        requires { id ≡ asked_block (request_lent request) }
        ensures { result ≡ holds self.now.config self.now.cap (state_of self.now) Refusal.BadLength (request_lent request.entry) }
    {
        match request.kind {
            RequestKind::Write { .. } | RequestKind::PutRam { .. } => {
                request.content.len() != usize::from(length(&self.config, id))
            }
            _ => false,
        }
    }

    fn lacks_ram(&self, request: LentRequest<'_>, id: u16) -> bool
        requires { id ≡ asked_block (request_lent request) }
        ensures { result ≡ holds self.now.config self.now.cap (state_of self.now) Refusal.NoRam (request_lent request.entry) }
    {
        match request.kind {
            RequestKind::PutRam { .. } => !is_permanent(&self.config, id),
            _ => has_no_ram(&self.config, id),
        }
    }

    // What is kept of a block beside its RAM.
    fn facts(&self, id: u16) -> BlockFacts
        ensures { result ≡ facts_of (block_at (state_of self.now) id) }
    {
        self.kept.blocks.facts(id)
    }

    fn is_sweep_pending(&self) -> bool
        ensures { result ≡ is_pending (status_of (state_of self.now) 0) }
    {
        matches!(self.status(0), ReqResult::Pending)
    }

    fn names_rom(&self, id: u16, facts: BlockFacts) -> bool
        requires { facts ≡ facts_of (block_at (state_of self.now) id) }
        ensures { result ≡ names_rom (desc_of self.now.config id) (block_at (state_of self.now) id) }
    {
        is_dataset(&self.config, id) && stored(&self.config, id) <= facts.index
    }

    /// Whether the job of a request is immediate: a write of a block of priority 0.
    pub(crate) fn is_immediate(&self, request: LentRequest<'_>) -> bool
        ensures { result ≡ is_immediate self.now.config (request_lent request.entry) }
    {
        match request.kind {
            RequestKind::Write { block, .. } | RequestKind::WriteRam { block, .. } => {
                priority(&self.config, block) == 0
            }
            _ => false,
        }
    }

    fn nothing_to_cancel(&self) -> bool
        ensures { result ≡ not (option_map_or can_cancel (state_of self.now).sweep false) }
    {
        match &self.kept.sweep {
            Some(sweep) => !sweep.can_cancel(),
            None => true,
        }
    }

    fn is_queue_full(&self, request: LentRequest<'_>) -> bool
        ensures { result ≡ holds self.now.config self.now.cap (state_of self.now) Refusal.QueueFull (request_lent request.entry) }
    {
        let immediate = self.is_immediate(request);
        self.kept.jobs.is_full(&self.config, immediate)
    }

    /// The entries that a request reserves, if it is accepted.
    pub(crate) fn needed(&self, request: LentRequest<'_>) -> u32
        ensures { result ≡ needed self.now.config (request_lent request.entry) }
    {
        match request.kind {
            RequestKind::Read { .. } | RequestKind::Restore { .. } => 2,
            RequestKind::Write { block, .. } | RequestKind::WriteRam { block, .. }
                if self.is_immediate(request) => { 4 + u32::from(records(&self.config, block)) }
            RequestKind::Write { block, .. }
            | RequestKind::WriteRam { block, .. }
            | RequestKind::Erase { block }
            | RequestKind::Invalidate { block } => 2 + u32::from(records(&self.config, block)),
            RequestKind::ReadAll => self.read_share,
            RequestKind::WriteAll => self.write_share,
            _ => 0,
        }
    }

    /// Whether so many more entries fit, beside those so far and the reserved ones.
    pub(crate) fn fits(&self, more: u64) -> bool
        requires { more < 2 ^ 33 }
        ensures { result ≡ fits self.now.config self.now.cap (state_of self.now) more }
    {
        u64::from(self.history.len()) + self.kept.reserved() + more <= u64::from(self.history.cap())
    }

    /// Whether a refusal holds of a request, of whose block this is kept.
    #[inline(always)]
    fn refuses(
        &self,
        refusal: Refusal,
        request: LentRequest<'_>,
        id: u16,
        facts: BlockFacts,
    ) -> bool
        requires block { id ≡ asked_block (request_lent request) }
        requires facts { facts ≡ facts_of (block_at (state_of self.now) id) }
        ensures { result ≡ holds self.now.config self.now.cap (state_of self.now) refusal (request_lent request.entry) }
    {
        match refusal {
            Refusal::UnknownBlock => self.is_unknown(request, id),
            Refusal::NotStarted => self.kept.off,
            Refusal::WrongType => self.is_wrong_type(request, id),
            Refusal::BadIndex => self.is_bad_index(request),
            Refusal::BadLength => self.is_bad_length(request, id),
            Refusal::NoRam => self.lacks_ram(request, id),
            Refusal::NoDefaults => has_no_defaults(&self.config, id),
            Refusal::NotImmediate => priority(&self.config, id) != 0,
            Refusal::WriteOnce => is_once(&self.config, id),
            Refusal::MultiPending => self.is_sweep_pending(),
            Refusal::Pending => matches!(facts.status, ReqResult::Pending),
            Refusal::Locked => facts.locked,
            Refusal::Protected => facts.protected,
            Refusal::RomIndex => self.names_rom(id, facts),
            Refusal::NothingToCancel => self.nothing_to_cancel(),
            Refusal::QueueFull => self.is_queue_full(request),
            Refusal::HistoryFull => !self.fits(1 + u64::from(self.needed(request))),
        }
    }

    // That a refusal doesn't hold of a request, of whose block this is kept.
    #[inline(always)]
    fn passes(
        &self,
        refusal: Refusal,
        request: LentRequest<'_>,
        id: u16,
        facts: BlockFacts,
    ) -> Result<(), Refusal>
        requires block { id ≡ asked_block (request_lent request) }
        requires facts { facts ≡ facts_of (block_at (state_of self.now) id) }
        ensures ok { OnOk result (holds self.now.config self.now.cap (state_of self.now) refusal (request_lent request.entry) ≡ false) }
        ensures err { IfErr result (λ x. (x ≡ refusal) × (holds self.now.config self.now.cap (state_of self.now) refusal (request_lent request.entry) ≡ true)) }
    {
        if self.refuses(refusal, request, id, facts) {
            Err(refusal)
        } else {
            Ok(())
        }
    }

    // The tests of a write that brings its content, one by one: it is what is asked most often. At Err the first that fails.
    #[inline(always)]
    fn test_write(&self, block: u16, store: u64, content: &[u8]) -> Result<(), Refusal>
        ensures ok { OnOk result (first_refusal self.now.config self.now.cap (state_of self.now) (Write block (Some content.now) store) ≡ None) }
        ensures err { IfErr result (λ why. first_refusal self.now.config self.now.cap (state_of self.now) (Write block (Some content.now) store) ≡ Some why) }
    {
        let kind = RequestKind::Write { block, store };
        let request = LentRequest { kind, content };
        let facts = self.facts(block);
        self.passes(Refusal::UnknownBlock, request, block, facts)?;
        self.passes(Refusal::NotStarted, request, block, facts)?;
        self.passes(Refusal::WrongType, request, block, facts)?;
        self.passes(Refusal::BadLength, request, block, facts)?;
        self.passes(Refusal::MultiPending, request, block, facts)?;
        self.passes(Refusal::Pending, request, block, facts)?;
        self.passes(Refusal::Locked, request, block, facts)?;
        self.passes(Refusal::Protected, request, block, facts)?;
        self.passes(Refusal::RomIndex, request, block, facts)?;
        self.passes(Refusal::QueueFull, request, block, facts)?;
        self.passes(Refusal::HistoryFull, request, block, facts)
    }

    /// The first of its refusals that holds of a request. Its block is looked up once.
    fn first_refusal(&self, request: LentRequest<'_>) -> Option<Refusal>
        ensures { result ≡ first_refusal self.now.config self.now.cap (state_of self.now) (request_lent request.entry) }
    {
        let refusals = tested(request);
        let id = asked_block(request);
        let facts = self.facts(id);
        for refusal in refusals {
            if self.refuses(*refusal, request, id, facts) {
                return Some(*refusal);
            }
        }
        None
    }

    /// What is replied where nothing refuses the request.
    fn answer_to(&self, request: LentRequest<'_>) -> Reply
        ensures { result ≡ answer_to (state_of self.now) (request_lent request.entry) }
    {
        match request.kind {
            RequestKind::Status { block } => Reply::StatusIs(self.kept.blocks.facts(block).status),
            RequestKind::GetIndex { block } => Reply::IndexIs(self.kept.blocks.facts(block).index),
            _ => Reply::Accepted,
        }
    }

    /// Whether the content of a request that is lent is at most as long as its block's, as `enter` asks.
    pub fn content_fits(&self, request: LentRequest<'_>) -> bool
        ensures { IsTrue result ↔ (length request.entry.content.now ≤ (desc_of self.now.config (asked_block (request_lent request.entry))).length) }
    {
        request.content.len() <= usize::from(length(&self.config, asked_block(request)))
    }

    // The reply to a request by its table of refusals.
    #[inline(never)]
    fn reply_by_table(&self, request: LentRequest<'_>) -> Reply
        ensures { result ≡ reply_of self.now.config self.now.cap (state_of self.now) (request_lent request.entry) }
    {
        match self.first_refusal(request) {
            Some(refusal) => Reply::Refused(refusal),
            None => self.answer_to(request),
        }
    }

    // The reply to a write that brings its content.
    #[inline(always)]
    fn reply_to_write(&self, block: u16, store: u64, content: &[u8]) -> Reply
        ensures { result ≡ reply_of self.now.config self.now.cap (state_of self.now) (Write block (Some content.now) store) }
    {
        match self.test_write(block, store, content) {
            Ok(()) => Reply::Accepted,
            Err(refusal) => Reply::Refused(refusal),
        }
    }

    /// The reply to a request: the first refusal that holds, or else what it asks for.
    #[inline(always)]
    pub(crate) fn reply(&self, request: LentRequest<'_>) -> Reply
        ensures { result ≡ reply_of self.now.config self.now.cap (state_of self.now) (request_lent request.entry) }
    {
        match request.kind {
            RequestKind::Write { block, store } => {
                self.reply_to_write(block, store, request.content)
            }
            _ => self.reply_by_table(request),
        }
    }
}

// The block that a request names, or 0 where it names all.
fn asked_block(request: LentRequest<'_>) -> u16
    ensures { result ≡ asked_block (request_lent request.entry) }
{
    match request.kind {
        RequestKind::Read { block, .. }
        | RequestKind::Write { block, .. }
        | RequestKind::WriteRam { block, .. }
        | RequestKind::Restore { block, .. }
        | RequestKind::Erase { block }
        | RequestKind::Invalidate { block }
        | RequestKind::SetIndex { block, .. }
        | RequestKind::GetIndex { block }
        | RequestKind::SetProtection { block, .. }
        | RequestKind::SetLock { block, .. }
        | RequestKind::SetRam { block, .. }
        | RequestKind::PutRam { block }
        | RequestKind::Status { block } => block,
        RequestKind::ReadAll | RequestKind::WriteAll | RequestKind::CancelWriteAll => 0,
    }
}
