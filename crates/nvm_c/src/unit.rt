// A unit: a stack over memory that C lends, behind its first start-up.
ghost use Rattle.std.specs.Prelude.{◌≡◌, ◌≤◌, ◌-◌, ◌↔◌, false, true, List, Some, None, Ok, Err, IfOk, IfErr, OnErr, IfSome, IsSomeAnd, IsErrOf, length, option_copied, option_map, slice_get};
ghost use Rattle.nvm.specs.block_config.Config.{block_of};
ghost use Rattle.nvm.specs.block_config.Lengths.{lengths_of};
ghost use Rattle.nvm.specs.block_machine.Blocks.{asked_block, block_at, desc_of, status_of};
ghost use Rattle.nvm.specs.block_machine.Legal.{HasStore};
ghost use Rattle.nvm.specs.block_machine.Reply.{reply_of};
ghost use Rattle.nvm.specs.block_machine.Words.{Instance, Mark, Found};
ghost use Rattle.nvm.specs.fls_model.Told.{bytes_now};
ghost use Rattle.nvm.specs.nv_desk.Desk.{state_of};
ghost use Rattle.nvm.specs.nv_desk.Event.{entry_of};
ghost use Rattle.nvm.specs.nv_desk.Recorder.{keeps};
ghost use Rattle.nvm.specs.nv_desk.Request.{request_lent, whole_request};
ghost use Rattle.nvm.specs.nvm_flash.fee_told.Device.{slots_in};
ghost use Rattle.nvm.specs.nvm_flash.nvm_laws.Standing.{settled_marks};
ghost use Rattle.nvm_script.specs.Lines.{entry_line};
ghost use Rattle.nvm.specs.Unit.{Stands, takes_of};
ghost use Rattle.nvm_c.specs.Filled.{IsFilled};
ghost use Rattle.nvm_c.specs.Texts.{facts_of};
ghost use Rattle.nvm_c.specs.Standing.{IsNotTold};
ghost use Rattle.nvm_c.specs.Unit.{CameBack, IsAskCall, IsStartCall, IsTurnCall, KnowsImage, TakenFrom, given_last, last_line};
ghost use Rattle.nvm_c.specs.Work.{PlansCut, PlansNone};

use crate::filled::fill;
use crate::standing::{LentDevice, LineFault, marks_standing};
use crate::texts::{BlockFacts, facts_of};
use lent_flash::{Lent, LentFlash};
use nvm::{
    AskFault, Bytes, Config, Entry, Event, FlashStack, FoundAnswer, Last, LentRequest, MemDevice,
    Origin, Reply, ReqResult, Request, RequestKind, Turned, UnitStack, bytes_of,
};
use nvm_script::entry_text;
use std::alloc::{AllocError, Global};
use std::marker::Model;

/// The stack that a unit is made of.
pub type LentStack<O> = FlashStack<LentFlash, O>;

/// The stack of a unit, whether its last start-up stands, how many power cuts may be planned yet, and whether it was opened over a
/// sound image. Contracts see the stack.
#[derive(Drop)]
pub struct LentUnit<O: Origin> {
    unit: UnitStack<LentFlash, O>,
    up: bool,
    plans: u32,
    sound: bool,
}

impl<O: Origin> Model for LentUnit<O> {
    ghost use Rattle.nvm_c.specs.Unit.{UnitState, IsLent, KnowsImage};

    ghost Value = { UnitState };

    ghost view = { λ u. u.unit };

    ghost invariant = { λ u. IsLent u.up u.plans u.unit × KnowsImage u.sound O.making O.entry };
}

impl<O: Origin> LentUnit<O> {
    /// The unit of a stack that counts its entries, whose first start-up stands, and of whose flash so many power cuts can be planned,
    /// over an image that is sound or isn't.
    pub(crate) fn over(unit: UnitStack<LentFlash, O>, plans: u32, sound: bool) -> LentUnit<O>
        requires ready { unit.ready ≡ true }
        requires plans { takes_of unit ≡ plans }
        requires counted { keeps unit.desk.cap ≡ false }
        requires image { KnowsImage sound O.making O.entry }
        ensures { result ≡ unit }
    {
        LentUnit {
            unit,
            up: true,
            plans,
            sound,
        }
    }

    /// Whether its last start-up stands.
    pub fn is_up(&self) -> bool
        ensures { result ≡ self.now.ready }
    {
        self.up
    }

    /// Takes a request of the one caller.
    pub fn ask(&mut self, alloc: Global, request: Request) -> Result<Reply, AskFault>
        requires ready { self.old.ready ≡ true }
        requires store { HasStore self.old.desk.config request }
        ensures asks { IsAskCall request result self.old self.new }
        ensures replies { IfOk result (λ reply. reply ≡ reply_of self.old.desk.config self.old.desk.cap (state_of self.old.desk) request) }
    {
        let before = self.unit.stack();
        let _device = before.device();
        let reply = self.unit.ask(alloc, 0, request)?;
        let after = self.unit.stack();
        let _behind = after.device();
        Ok(reply)
    }

    // Takes a request with a copy of its content. It stands apart, since it is asked seldom.
    #[inline(never)]
    fn ask_copied(
        &mut self,
        alloc: Global,
        kind: RequestKind,
        content: &[u8],
    ) -> Result<Reply, AskFault>
        requires ready { self.old.ready ≡ true }
        requires store { HasStore self.old.desk.config (whole_request kind content.now) }
        ensures asks { IsAskCall (whole_request kind content.now) result self.old self.new }
        ensures replies { IfOk result (λ reply. reply ≡ reply_of self.old.desk.config self.old.desk.cap (state_of self.old.desk) (whole_request kind content.now)) }
    {
        let content = bytes_of(alloc, content)?;
        self.ask(alloc, kind.whole(content))
    }

    /// Takes a request of the one caller, whose content is lent. It takes memory only for a content that is longer than its block's,
    /// which is refused.
    #[inline(always)]
    pub fn enter(
        &mut self,
        alloc: Global,
        kind: RequestKind,
        content: &[u8],
    ) -> Result<Reply, AskFault>
        requires ready { self.old.ready ≡ true }
        requires store { HasStore self.old.desk.config (whole_request kind content.now) }
        ensures asks { IsAskCall (whole_request kind content.now) result self.old self.new }
        ensures replies { IfOk result (λ reply. reply ≡ reply_of self.old.desk.config self.old.desk.cap (state_of self.old.desk) (whole_request kind content.now)) }
        ensures total { length content.now ≤ (desc_of self.old.desk.config (asked_block (whole_request kind content.now))).length
            → IsErrOf result AskFault.Memory → ⊥ }
    {
        let request = LentRequest { kind, content };
        let before = self.unit.stack();
        if !before.content_fits(request) {
            return self.ask_copied(alloc, kind, content);
        }
        let _device = before.device();
        let reply = self.unit.enter(0, request)?;
        let after = self.unit.stack();
        let _behind = after.device();
        Ok(reply)
    }

    /// One turn of the main function.
    pub fn turn(&mut self) -> Turned
        requires { self.old.ready ≡ true }
        ensures { IsTurnCall result self.old self.new }
    {
        let before = self.unit.stack();
        let _device = before.device();
        let turned = self.unit.turn();
        let after = self.unit.stack();
        let _behind = after.device();
        turned
    }

    /// A further start-up.
    pub fn restart(&mut self, alloc: Global) -> FoundAnswer
        ensures { IsStartCall result self.old self.new }
    {
        let found = self.unit.restart(alloc);
        match found {
            FoundAnswer::Ready => self.up = true,
            FoundAnswer::Failed => self.up = false,
            FoundAnswer::NoRoom | FoundAnswer::Memory => {}
        }
        found
    }

    /// Plans a power cut at its nth changing operation from now, with so many bytes of it done. Tells whether it did: no plan is
    /// taken where as many were taken as there may be, nor of operation 0, and then nothing changed.
    pub fn arm(&mut self, nth: u32, keep: u32) -> bool
        requires { self.old.ready ≡ true }
        ensures planned { result ≡ true → PlansCut nth keep self.old self.new }
        ensures none { result ≡ false → (self.new ≡ self.old) × PlansNone nth self.old }
    {
        if nth == 0 || self.plans == 0 {
            return false;
        }
        self.plans -= 1;
        let before = self.unit.stack();
        let _device = before.device();
        self.unit.arm(0, nth, keep);
        true
    }

    /// The status of a block.
    pub fn status(&self, block: u16) -> ReqResult
        ensures { result ≡ status_of (state_of self.now.desk) block }
    {
        self.unit.status(block)
    }

    /// Whether the RAM of a block is valid.
    pub fn ram_is_valid(&self, block: u16) -> bool
        ensures { result ≡ (block_at (state_of self.now.desk) block).valid }
    {
        self.unit.ram_is_valid(block)
    }

    /// What the configuration says of a block, if there is one.
    pub fn block_facts(&self, block: u16) -> Option<BlockFacts>
        ensures { result ≡ option_map facts_of (block_of self.now.desk.config block) }
    {
        let stack = self.unit.stack();
        described(stack.config(), block)
    }

    /// Copies what a block's RAM holds to the front of `into`, where there is room for it. Answers its size.
    pub fn copy_ram(&self, block: u16, into: &mut [u8]) -> usize
        ensures { IsFilled (block_at (state_of self.now.desk) block).ram result into.old into.new }
    {
        fill(self.unit.ram(block), into)
    }

    /// Copies what the last entry gave likewise. None, and nothing is copied, where it isn't a Post that gave something.
    pub fn copy_given(&self, into: &mut [u8]) -> Option<usize>
        ensures some { IfSome result (λ size. IsSomeAnd (given_last self.now) (λ content. IsFilled content size into.old into.new)) }
        ensures none { result ≡ None → (given_last self.now ≡ None) × (into.new ≡ into.old) }
    {
        match self.unit.stack().last_given() {
            Some(given) => Some(fill(given, into)),
            None => None,
        }
    }

    /// The line of the last entry, with its newline, where there is an entry. That of a start-up is written from what stands on the
    /// flash then: no content that it found is kept beside.
    pub fn last_line(&self, alloc: Global) -> Result<Option<Bytes>, LineFault>
        ensures line { IfOk result (λ line. line ≡ last_line self.now) }
        ensures none { IfErr result (λ fault. IsNotTold fault self.now) }
    {
        match self.unit.stack().last() {
            Some(Last::Added(entry)) => told(entry_text(alloc, entry)),
            Some(Last::OfJob { event, content }) => told(job_line(alloc, event, content)),
            Some(
                Last::OfRequest {
                    caller,
                    request,
                    reply,
                },
            ) => told(request_line(alloc, caller, request, reply)),
            Some(Last::Found { marks: _, ops }) => self.found_line(alloc, ops),
            None => Ok(None),
        }
    }

    // The line of a start-up, whose marks stand on the flash.
    #[inline(never)]
    fn found_line(&self, alloc: Global, ops: u64) -> Result<Option<Bytes>, LineFault>
        requires last { (marks : List (Instance × Mark)) × (slice_get self.now.desk.entries (length self.now.desk.entries - 1) ≡ Some (Found marks ops)) }
        ensures line { IfOk result (λ line. line ≡ last_line self.now) }
        ensures none { IfErr result (λ fault. IsNotTold fault self.now) }
    {
        if !self.up {
            return Err(LineFault::Down);
        }
        let stack = self.unit.stack();
        let device = stack.device();
        let _flash = device.flash();
        if !self.sound && device.ops() > 0 {
            return Err(LineFault::Unsound);
        }
        told(standing_line(alloc, stack.config(), device, ops))
    }

    /// How many entries the history has.
    pub fn entries(&self) -> u32
        ensures { result ≡ length self.now.desk.entries }
    {
        self.unit.stack().len()
    }

    /// Does nothing. Between any two calls what happened so far keeps the promise, whatever the flash holds then: so a unit need
    /// not be closed.
    pub fn stands(&self)
        ensures { Stands O.entry self.now }
    {
        self.unit.stands();
    }

    /// Takes it apart, and gives the memory back.
    pub fn close(self) -> Lent
        ensures came { CameBack O.entry self result.bytes }
        ensures taken { TakenFrom O.making O.entry self result.bytes }
    {
        let LentUnit { unit, .. } = self;
        unit.into_flash().into_lent()
    }
}

// What a configuration says of a block, if there is one.
fn described(config: &Config, block: u16) -> Option<BlockFacts>
    ensures { result ≡ option_map facts_of (block_of config.now block) }
{
    match config.block(block) {
        Some(found) => Some(facts_of(found)),
        None => None,
    }
}

// The line of an entry of a job, whose content stands beside it.
fn job_line(alloc: Global, event: Event, content: Option<&[u8]>) -> Result<Bytes, AllocError>
    ensures { IfOk result (λ line. line ≡ entry_line (entry_of event (option_copied content.entry))) }
{
    let content = copy_of(alloc, content)?;
    let entry = event.entry(content);
    entry_text(alloc, &entry)
}

// The line of a request, whose content stands beside it.
fn request_line(
    alloc: Global,
    caller: u8,
    request: LentRequest<'_>,
    reply: Reply,
) -> Result<Bytes, AllocError>
    ensures { IfOk result (λ line. line ≡ entry_line (Entry.Ask caller (request_lent request.entry) reply)) }
{
    let content = bytes_of(alloc, request.content)?;
    let request = request.kind.whole(content);
    let entry = Entry::Ask {
        caller,
        request,
        reply,
    };
    entry_text(alloc, &entry)
}

// The line of a start-up of this configuration, whose marks are what a device holds.
fn standing_line<O: Origin>(
    alloc: Global,
    config: &Config,
    device: &LentDevice<O>,
    ops: u64,
) -> Result<Bytes, AllocError>
    requires started { device.now.started ≡ true }
    requires numbers { lengths_of config.now ≡ device.now.making.numbers }
    ensures { IfOk result (λ line. IsSomeAnd (bytes_now device.now.flash) (λ bytes. line ≡ entry_line (Entry.Found (settled_marks device.now.making.numbers (slots_in device.now bytes)) ops))) }
{
    let numbers = config.all_lengths(alloc)?;
    let marks = marks_standing(alloc, &numbers, device)?;
    entry_text(alloc, &Entry::Found { marks, ops })
}

// A line, or why it isn't told.
fn told(line: Result<Bytes, AllocError>) -> Result<Option<Bytes>, LineFault>
    ensures line { IfOk line (λ bytes. result ≡ Ok (Some bytes)) }
    ensures none { OnErr line (result ≡ Err LineFault.Memory) }
{
    match line {
        Ok(line) => Ok(Some(line)),
        Err(_) => Err(LineFault::Memory),
    }
}

// A copy of a content, if there is one.
fn copy_of(alloc: Global, content: Option<&[u8]>) -> Result<Option<Bytes>, AllocError>
    ensures { IfOk result (λ copy. copy ≡ option_copied content.entry) }
{
    match content {
        Some(content) => Ok(Some(bytes_of(alloc, content)?)),
        None => Ok(None),
    }
}
