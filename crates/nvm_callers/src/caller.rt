// What a caller does.
ghost use Rattle.std.specs.Prelude.{◌≡◌, ◌≤◌, ◌++◌, ◌∷◌, [], ℕ, List, Option, true, false, length, take, All, IfOk, OnOk, OnErr, IsErrOf};
ghost use Rattle.turn_gate.specs.Pass.{knows};
ghost use Rattle.driver_moves.specs.block_machine.Legal.{HasStore};
ghost use Rattle.driver_moves.specs.nv_desk.declared.ask.AskFault.TheVariants as fault;
ghost use Rattle.script_callers.specs.declared.deed.Deed.{Deed as Deeds};
ghost use Rattle.script_callers.specs.declared.deed.Deed.TheVariants as deed_of;
ghost use Rattle.driver_moves.specs.nvm_shared.Passes.{IsUserOf};
ghost use Rattle.nvm_callers.specs.Stored.{Stored};
ghost use Rattle.nvm_callers.specs.Calls.{Did, IsAsk, IsAwait, KeepsPass, MayMake};
ghost use Rattle.nvm_callers.specs.Endings.{FindsNoRoom, StopsBy};
ghost use Rattle.nvm_callers.specs.declared.caller.NotMade.TheVariants as stop;

use crate::ending::Ending;
use crate::hold::Hold;
use crate::round::Round;
use crate::stores::Stores;
use crate::wait::is_over;
use driver_moves::nvm_shared::{Shared, StackPass};
use driver_moves::{AskFault, Request};
use script_callers::Deed;
use std::alloc::{AllocError, Global};
use std::sync::Wait;

/// A caller, 0 to 15, with what stands round each of its requests, and the round that it is in.
#[derive(Drop)]
pub struct Caller<'a, H> {
    pub number: u8,
    pub alloc: Global,
    pub hold: &'a H,
    pub round: &'a Round,
}

// What keeps a caller from its next deed: a request has no room, there is no memory, or a wait goes on.
#[derive(Clone, Copy)]
enum NotMade {
    NoRoom,
    Memory,
    Wait,
}

fn copy_of(request: &Request) -> Result<Request, AllocError>
    ensures { IfOk result (λ r. r ≡ request.now) }
{
    request.clone()
}

impl<'a, H: Hold> Caller<'a, H> {
    // One request.
    fn ask<W: Wait>(
        &self,
        rt: &W,
        shared: &Shared,
        pass: &mut StackPass,
        line: u32,
        request: &Request,
    ) -> Result<(), AskFault>
        requires own { IsUserOf shared.now pass.old }
        requires caller { self.now.number ≤ 15 }
        requires store { HasStore shared.now.terms.config request.now }
        ensures own { IsUserOf shared.now pass.new }
        ensures keeps { KeepsPass (knows pass.old) (knows pass.new) }
        ensures done { (ds : List Deeds) (bytes : ℕ → Option ℕ) (began made : ℕ → List Stored)
            → Did shared.now.terms self.now.number ds (knows pass.old) bytes began made
            → OnOk result (Did shared.now.terms self.now.number (ds ++ deed_of.Ask line request.now ∷ []) (knows pass.new) bytes began made) }
        ensures left { (ds : List Deeds) (bytes : ℕ → Option ℕ) (began made : ℕ → List Stored) → Did shared.now.terms self.now.number ds (knows pass.old) bytes began made → OnErr result (Did shared.now.terms self.now.number ds (knows pass.new) bytes began made) }
        ensures full { IsErrOf result fault.NoRoom → FindsNoRoom shared.now.terms (knows pass.new) }
    {
        let Ok(request) = copy_of(request) else {
            return Err(AskFault::Memory);
        };
        self.hold.before(self.number, line);
        let answer = shared.ask(rt, self.alloc, pass, self.number, request);
        self.round.tell();
        self.hold.answered(self.number, line);
        match answer {
            Ok((_reply, _number)) => Ok(()),
            Err(fault) => Err(fault),
        }
    }

    // One wait: whether it is over.
    fn wait(&self, shared: &Shared, pass: &mut StackPass, line: u32, block: u16) -> bool
        requires own { IsUserOf shared.now pass.old }
        requires block { block ≤ 512 }
        requires configured { block ≤ length shared.now.terms.config.blocks }
        ensures own { IsUserOf shared.now pass.new }
        ensures keeps { KeepsPass (knows pass.old) (knows pass.new) }
        ensures done { (ds : List Deeds) (bytes : ℕ → Option ℕ) (began made : ℕ → List Stored) → Did shared.now.terms self.now.number ds (knows pass.old) bytes began made → result ≡ true → Did shared.now.terms self.now.number (ds ++ deed_of.Await line block ∷ []) (knows pass.new) bytes began made }
        ensures left { (ds : List Deeds) (bytes : ℕ → Option ℕ) (began made : ℕ → List Stored) → Did shared.now.terms self.now.number ds (knows pass.old) bytes began made → result ≡ false → Did shared.now.terms self.now.number ds (knows pass.new) bytes began made }
    {
        is_over(shared, pass, block)
    }

    // One store.
    fn store<S: Stores>(
        &self,
        shared: &Shared,
        pass: &mut StackPass,
        stores: &mut S,
        deed: (u32, u16, u64),
        content: &[u8],
    )
        requires lock { S.is_of shared.now.gate }
        requires own { IsUserOf shared.now pass.old }
        ensures own { IsUserOf shared.now pass.new }
        ensures keeps { KeepsPass (knows pass.old) (knows pass.new) }
        ensures bytes { (block : ℕ) → S.bytes stores.new block ≡ S.bytes stores.old block }
        ensures mirrors { S.mirrors stores.new ≡ S.mirrors stores.old }
        ensures done { (ds : List Deeds) (bytes : ℕ → Option ℕ) (began : ℕ → List Stored) → ((block : ℕ) → S.bytes stores.old block ≡ bytes block)
            → Did shared.now.terms self.now.number ds (knows pass.old) bytes began (S.made stores.old)
            → Did shared.now.terms self.now.number (ds ++ deed_of.Store deed.0 deed.1 deed.2 content.now ∷ []) (knows pass.new) bytes began (S.made stores.new) }
    {
        let (_line, block, _number) = deed;
        stores.store(shared, pass, block, content);
    }

    // One of them.
    fn make<W: Wait, S: Stores>(
        &self,
        rt: &W,
        shared: &Shared,
        pass: &mut StackPass,
        stores: &mut S,
        deed: &Deed,
    ) -> Result<(), NotMade>
        requires lock { S.is_of shared.now.gate }
        requires own { IsUserOf shared.now pass.old }
        requires caller { self.now.number ≤ 15 }
        requires may { MayMake shared.now.terms.config deed.now }
        ensures own { IsUserOf shared.now pass.new }
        ensures keeps { KeepsPass (knows pass.old) (knows pass.new) }
        ensures bytes { (block : ℕ) → S.bytes stores.new block ≡ S.bytes stores.old block }
        ensures mirrors { S.mirrors stores.new ≡ S.mirrors stores.old }
        ensures done { (ds : List Deeds) (bytes : ℕ → Option ℕ) (began : ℕ → List Stored) → ((block : ℕ) → S.bytes stores.old block ≡ bytes block)
            → Did shared.now.terms self.now.number ds (knows pass.old) bytes began (S.made stores.old)
            → OnOk result (Did shared.now.terms self.now.number (ds ++ deed.now ∷ []) (knows pass.new) bytes began (S.made stores.new)) }
        ensures left { (ds : List Deeds) (bytes : ℕ → Option ℕ) (began : ℕ → List Stored) → ((block : ℕ) → S.bytes stores.old block ≡ bytes block)
            → Did shared.now.terms self.now.number ds (knows pass.old) bytes began (S.made stores.old)
            → OnErr result (Did shared.now.terms self.now.number ds (knows pass.new) bytes began (S.made stores.new)) }
        ensures full { IsErrOf result stop.NoRoom → FindsNoRoom shared.now.terms (knows pass.new) × IsAsk deed.now }
        ensures waits { IsErrOf result stop.Wait → IsAwait deed.now }
    {
        match deed {
            Deed::Ask { line, request } => match self.ask(rt, shared, pass, *line, request) {
                Ok(()) => Ok(()),
                Err(AskFault::NoRoom) => Err(NotMade::NoRoom),
                Err(AskFault::Memory) => Err(NotMade::Memory),
            },
            Deed::Await { line, block } => {
                if self.wait(shared, pass, *line, *block) {
                    Ok(())
                } else {
                    Err(NotMade::Wait)
                }
            }
            Deed::Store {
                line,
                block,
                number,
                content,
            } => {
                self.store(
                    shared,
                    pass,
                    stores,
                    (*line, *block, *number),
                    content.as_slice(),
                );
                Ok(())
            }
        }
    }

    /// All of them in order from a place on, up to a request that finds no room or no memory, or to a wait that goes on. It answers
    /// how many were made, those before the place among them, and how it ended; None where its next deed is a wait.
    pub fn make_all<W: Wait, S: Stores>(
        &self,
        rt: &W,
        shared: &Shared,
        pass: &mut StackPass,
        stores: &mut S,
        deeds: &[Deed],
        begin: usize,
    ) -> (usize, Option<Ending>)
        requires lock { S.is_of shared.now.gate }
        requires own { IsUserOf shared.now pass.old }
        requires caller { self.now.number ≤ 15 }
        requires may { All (MayMake shared.now.terms.config) deeds.now }
        requires begin { begin ≤ length deeds.now }
        ensures own { IsUserOf shared.now pass.new }
        ensures keeps { KeepsPass (knows pass.old) (knows pass.new) }
        ensures count { (begin ≤ result.0) × (result.0 ≤ length deeds.now) }
        ensures bytes { (block : ℕ) → S.bytes stores.new block ≡ S.bytes stores.old block }
        ensures mirrors { S.mirrors stores.new ≡ S.mirrors stores.old }
        ensures done { (bytes : ℕ → Option ℕ) (began : ℕ → List Stored) → ((block : ℕ) → S.bytes stores.old block ≡ bytes block)
            → Did shared.now.terms self.now.number (take begin deeds.now) (knows pass.old) bytes began (S.made stores.old)
            → Did shared.now.terms self.now.number (take result.0 deeds.now) (knows pass.new) bytes began (S.made stores.new) }
        ensures stops { StopsBy shared.now.terms deeds.now result.0 (knows pass.new) result.1 }
    {
        for place in begin..deeds.len() {
            match self.make(rt, shared, pass, stores, &deeds[place]) {
                Ok(()) => {}
                Err(NotMade::NoRoom) => return (place, Some(Ending::NoRoom)),
                Err(NotMade::Memory) => return (place, Some(Ending::Memory)),
                Err(NotMade::Wait) => return (place, None),
            }
        }
        (deeds.len(), Some(Ending::All))
    }
}
