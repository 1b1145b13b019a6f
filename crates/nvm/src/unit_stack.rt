// The stack of a unit.
ghost use Rattle.std.specs.Prelude.{◌≡◌, ◌≢◌, ◌≤◌, ◌<◌, ◌↔◌, ◌++◌, ◌∷◌, [], true, false, ℕ, length, map, get_or, slice_set, IfOk, IsErrOf, OnErr};
ghost use Rattle.nvm_flash.specs.block_machine.Blocks.{asked_block, block_at, desc_of, status_of};
ghost use Rattle.nvm_flash.specs.block_machine.Legal.{HasStore};
ghost use Rattle.nvm_flash.specs.block_machine.Reply.{fits, reply_of};
ghost use Rattle.nvm_flash.specs.block_machine.Words.{Status, StatusIs};
ghost use Rattle.nvm_flash.specs.memif.Calls.{Arms};
ghost use Rattle.nvm_flash.specs.memif.Told.{faults_of};
ghost use Rattle.nvm_flash.specs.memif.Trials.{Lasts};
ghost use Rattle.nvm_flash.specs.fls_devices.Cutter.{cutting, told_cutting};
ghost use Rattle.nvm_flash.specs.fls_model.Told.{Told};
ghost use Rattle.nvm_flash.specs.fee_core.Tells.{told_clock};
ghost use Rattle.nvm_flash.specs.fee_told.Device.{told_of, clock_of};
ghost use Rattle.nvm_flash.specs.fee_laws.Made.{part_at};
ghost use Rattle.nvm_flash.specs.block_config.Config.{Configuration};
ghost use Rattle.nvm_flash.specs.Made.{IsBack, IsOrigin};
ghost use Rattle.nvm_flash.specs.nv_desk.Desk.{state_of};
ghost use Rattle.nvm_flash.specs.nv_desk.Recorder.{keeps};
ghost use Rattle.nvm_flash.specs.nv_desk.Request.{request_lent};
ghost use Rattle.nvm_flash.specs.ram_blocks.Copies.{next_number};
ghost use Rattle.nvm_flash.specs.ram_blocks.Told.{IsSynchronized};
ghost use Rattle.nvm_flash.specs.ram_blocks.Plain.{told_of as copy_told, no_plain, stored, refusing};
ghost use Rattle.nvm_flash.specs.nvm_laws.DueCalls.{KeepsDue, TurnServesDue};
ghost use Rattle.nvm_flash.specs.nvm_laws.Keeps.{StaysKept};
ghost use Rattle.nvm_flash.specs.nvm_laws.StartUps.{StacksComeDown};
ghost use Rattle.nvm_flash.specs.nvm_laws.Traits.{KeepsSeal, TakesKeptInHand};
ghost use Rattle.nvm_flash.specs.nvm_core.Due.{AcceptsDue, now_of};
ghost use Rattle.nvm_flash.specs.nvm_core.Paying.{TurnPays};
ghost use Rattle.nvm_flash.specs.nvm_core.StartUps.{Restarts, StartsKeep};
ghost use Rattle.nvm_flash.specs.nvm_core.Work.{Lowers, TakesTurns};
ghost use Rattle.nvm.specs.Closing.{Closes};
ghost use Rattle.nvm.specs.Turned.{AsksMove, PlansMove, TurnsMove};
ghost use Rattle.nvm.specs.Unit.{IsUnit, ListsStanding, Stands, Stays, UnitTurns, left_behind, takes_of};

use nvm_flash::{
    AskFault, Entry, Flash, FlashStack, FoundAnswer, LentRequest, MemDevice, Origin, Reply,
    ReqResult, Request, Turned, give_back,
};
use std::alloc::Global;
use std::marker::Model;

/// The stack of a unit over a flash, from its first start-up on. Contracts see the stack. Whatever a unit asks of it, its entries
/// are those of one history, its calls keep what the steps of a script keep, and what its flash comes back with is what they say.
#[derive(Drop)]
pub struct UnitStack<F: Flash, O: Origin> {
    stack: FlashStack<F, O>,
    // how many power cuts may be planned yet
    plans: u32,
}

impl<F: Flash, O: Origin> Model for UnitStack<F, O> {
    ghost use Rattle.nvm.specs.Closing.{UnitState};
    ghost use Rattle.nvm.specs.Unit.{IsUnit};

    ghost Value = { UnitState };

    ghost view = { λ u. u.stack };

    ghost invariant = { λ u. IsUnit O.making O.entry u.plans u.stack };
}

impl<F: Flash, O: Origin> UnitStack<F, O> {
    /// That of a stack behind its first start-up, of whose flash so many power cuts can be planned.
    pub fn over(stack: FlashStack<F, O>, plans: u32) -> UnitStack<F, O>
        requires { IsUnit O.making O.entry plans stack }
        ensures { result ≡ stack }
    {
        UnitStack { stack, plans }
    }

    /// The stack, to look at.
    pub fn stack(&self) -> &FlashStack<F, O>
        ensures stack { result.now ≡ self.now }
        ensures standing { ListsStanding self.now }
    {
        let _device = self.stack.device();
        &self.stack
    }

    /// The status of a block, as a request for it would be answered now. It adds no entry.
    pub fn status(&self, block: u16) -> ReqResult
        ensures status { result ≡ status_of (state_of self.now.desk) block }
        ensures asked { (r : ReqResult) → reply_of self.now.desk.config self.now.desk.cap (state_of self.now.desk) (Status block) ≡ StatusIs r → result ≡ r }
    {
        self.stack.status(block)
    }

    /// The content of a block's RAM.
    pub fn ram(&self, block: u16) -> &[u8]
        ensures ram { result.now ≡ (block_at (state_of self.now.desk) block).ram }
        ensures within { length result.now ≤ (desc_of self.now.desk.config block).length }
    {
        self.stack.ram(block)
    }

    /// Whether the RAM of a block is valid: a WriteAll writes it, where it is changed too.
    pub fn ram_is_valid(&self, block: u16) -> bool
        ensures { result ≡ (block_at (state_of self.now.desk) block).valid }
    {
        self.stack.ram_is_valid(block)
    }

    /// Takes a request of a caller, from 0 to 15, and all memory that its job needs.
    pub fn ask(&mut self, alloc: Global, caller: u8, request: Request) -> Result<Reply, AskFault>
        requires ready { self.old.ready ≡ true }
        requires caller { caller ≤ 15 }
        requires store { HasStore self.old.desk.config request }
        ensures reply { IfOk result (λ reply. reply ≡ reply_of self.old.desk.config self.old.desk.cap (state_of self.old.desk) request) }
        ensures ok { IfOk result (λ reply. self.new ≡ record self.old { desk = record self.old.desk { entries = self.old.desk.entries ++ Entry.Ask caller request reply ∷ [] } }) }
        ensures err { OnErr result (self.new ≡ self.old) }
        ensures no_room { IsErrOf result AskFault.NoRoom ↔ fits self.old.desk.config self.old.desk.cap (state_of self.old.desk) 1 ≡ false }
        ensures keeps { StaysKept self.old.desk self.old.hand (told_of self.old.device) (told_clock self.old.device) self.new.desk self.new.hand (told_of self.new.device) (told_clock self.new.device) }
        ensures accepted { AcceptsDue told_of request result self.old self.new }
        ensures due { KeepsDue (now_of told_of self.old) (now_of told_of self.new) }
        ensures moved { AsksMove caller request result self.old self.new }
        ensures stays { Stays self.old self.new }
    {
        let device = self.stack.device();
        let _status = device.status();
        self.stack.ask(alloc, caller, request)
    }

    /// Takes a request whose content is lent, of a caller, from 0 to 15, where entries aren't kept, as those of a unit aren't, and
    /// replies as `ask` does. The content is at most as long as its block's; a request that brings none lends no bytes. It takes no
    /// memory: Ok comes exactly where its entry fits under the cap, and else `NoRoom`, and nothing changed.
    #[inline(always)]
    pub fn enter(&mut self, caller: u8, request: LentRequest<'_>) -> Result<Reply, AskFault>
        requires counted { keeps self.old.desk.cap ≡ false }
        requires ready { self.old.ready ≡ true }
        requires caller { caller ≤ 15 }
        requires store { HasStore self.old.desk.config (request_lent request) }
        requires content { length request.content.now ≤ (desc_of self.old.desk.config (asked_block (request_lent request))).length }
        ensures reply { IfOk result (λ reply. reply ≡ reply_of self.old.desk.config self.old.desk.cap (state_of self.old.desk) (request_lent request.entry)) }
        ensures ok { IfOk result (λ reply. self.new ≡ record self.old { desk = record self.old.desk { entries = self.old.desk.entries ++ Entry.Ask caller (request_lent request.entry) reply ∷ [] } }) }
        ensures err { OnErr result (self.new ≡ self.old) }
        ensures no_room { IsErrOf result AskFault.NoRoom ↔ fits self.old.desk.config self.old.desk.cap (state_of self.old.desk) 1 ≡ false }
        ensures total { IsErrOf result AskFault.Memory → ⊥ }
        ensures keeps { StaysKept self.old.desk self.old.hand (told_of self.old.device) (told_clock self.old.device) self.new.desk self.new.hand (told_of self.new.device) (told_clock self.new.device) }
        ensures accepted { AcceptsDue told_of (request_lent request.entry) result self.old self.new }
        ensures due { KeepsDue (now_of told_of self.old) (now_of told_of self.new) }
        ensures moved { AsksMove caller (request_lent request.entry) result self.old self.new }
        ensures stays { Stays self.old self.new }
    {
        let device = self.stack.device();
        let _status = device.status();
        self.stack.enter(caller, request)
    }

    /// One turn of the main function: the first of what is to be done, and nothing else. It makes at most one turn of the
    /// device, adds at most one entry, and takes no memory.
    pub fn turn(&mut self) -> Turned
        requires { self.old.ready ≡ true }
        ensures turns { UnitTurns result self.old self.new }
        ensures keeps { StaysKept self.old.desk self.old.hand (told_of self.old.device) (told_clock self.old.device) self.new.desk self.new.hand (told_of self.new.device) (told_clock self.new.device) }
        ensures counted { faults_of (told_of self.old.device) ≤ faults_of (told_of self.new.device) }
        ensures lowers { Lowers told_of result self.old self.new }
        ensures left { TakesTurns told_of result self.old self.new }
        ensures lasts { Lasts (told_of self.old.device) (told_clock self.old.device) (told_of self.new.device) (told_clock self.new.device) }
        ensures pays { TurnPays told_of told_clock self.old self.new }
        ensures due { TurnServesDue (now_of told_of self.old) (now_of told_of self.new) }
        ensures seals { KeepsSeal (told_of self.old.device) (told_clock self.old.device) (told_of self.new.device) (told_clock self.new.device) }
        ensures kept { TakesKeptInHand self.old.desk (told_of self.old.device) (told_of self.new.device) (told_clock self.new.device) }
        ensures moved { TurnsMove self.old self.new }
        ensures ready { self.new.ready ≡ true }
        ensures stays { Stays self.old self.new }
    {
        let device = self.stack.device();
        let _before = device.status();
        let turned = self.stack.turn();
        let behind = self.stack.device();
        let _status = behind.status();
        turned
    }

    /// A further start-up, at any time: what is pending is lost. At `NoRoom` and `Memory` nothing changed. Where entries are counted
    /// it takes no memory, and `Memory` never comes.
    pub fn restart(&mut self, alloc: Global) -> FoundAnswer
        ensures restarts { Restarts told_of result self.old self.new }
        ensures counted { keeps self.old.desk.cap ≡ false → result ≢ FoundAnswer.Memory }
        ensures keeps { StartsKeep result self.old.desk (told_of self.old.device) (told_clock self.old.device) self.new.desk (told_of self.new.device) (told_clock self.new.device) }
        ensures lasts { Lasts (told_of self.old.device) (told_clock self.old.device) (told_of self.new.device) (told_clock self.new.device) }
        ensures down { StacksComeDown (told_of self.old.device) (told_clock self.old.device) }
        ensures stays { Stays self.old self.new }
    {
        let answer = self.stack.restart(alloc);
        let behind = self.stack.device();
        let _status = behind.status();
        answer
    }

    /// Plans a power cut of the device's first part, 0, at its nth changing operation from now, with so many bytes of it done.
    /// Tells whether it did: none is planned where as many were as `run_unit` was told, nor of another part, nor at operation 0.
    pub fn arm(&mut self, which: u8, nth: u32, keep: u32) -> bool
        requires { self.old.ready ≡ true }
        ensures planned { result ≡ true ↔ takes_of self.new < takes_of self.old }
        ensures arms { Arms which nth keep (told_of self.old.device) (told_clock self.old.device) (told_of self.new.device) (told_clock self.new.device) }
        ensures keeps { StaysKept self.old.desk self.old.hand (told_of self.old.device) (told_clock self.old.device) self.new.desk self.new.hand (told_of self.new.device) (told_clock self.new.device) }
        ensures only { self.new ≡ record self.old { device = self.new.device } }
        ensures due { KeepsDue (now_of told_of self.old) (now_of told_of self.new) }
        ensures moved { PlansMove self.old self.new }
        ensures stays { Stays self.old self.new }
    {
        let left = plans_left(self.plans, which, nth);
        let planned = left < self.plans;
        self.plans = left;
        self.stack.arm(which, nth, keep);
        planned
    }

    /// The application stores a content of a synchronized block. Answers the store's number, from 1.
    pub fn store(&mut self, block: u16, content: &[u8]) -> u64
        requires { IsSynchronized (map copy_told self.old.copies) block (length content.now) }
        ensures number { result ≡ next_number (get_or self.old.copies block no_plain).number }
        ensures stored { self.new ≡ record self.old { copies = slice_set self.old.copies block (stored content.now (get_or self.old.copies block no_plain)) } }
        ensures stays { Stays self.old self.new }
    {
        self.stack.store(block, content)
    }

    /// So many next copies of a synchronized block are refused.
    pub fn refuse(&mut self, block: u16, count: u32)
        ensures refused { self.new ≡ record self.old { copies = slice_set self.old.copies block (refusing count (get_or self.old.copies block no_plain)) } }
        ensures stays { Stays self.old self.new }
    {
        self.stack.refuse(block, count);
    }

    /// Does nothing. Between any two calls what happened so far keeps the promise, whatever the flash holds then: so a unit need
    /// not be closed.
    pub fn stands(&self)
        ensures { Stands O.entry self.now }
    {
        let _plans = self.plans;
    }

    /// Takes it apart, and gives the flash back.
    pub fn into_flash(self) -> F
        ensures closes { (inner : Told) (cuts : ℕ) → O.entry ≡ told_cutting (cutting inner cuts) → Closes inner (F.told result) self }
        ensures back { (c : Configuration) (inner : Told) (cuts : ℕ) → IsOrigin c inner cuts O.making O.entry → IsBack c inner (F.told result) (part_at O.entry) (told_of self.device) (clock_of self.device) }
    {
        let UnitStack { stack, .. } = self;
        give_back(stack.into_device())
    }
}

// How many power cuts may be planned yet, behind such a plan.
fn plans_left(plans: u32, which: u8, nth: u32) -> u32
    ensures { result ≡ left_behind which nth plans }
{
    if which == 0 && nth > 0 {
        plans.saturating_sub(1)
    } else {
        plans
    }
}
