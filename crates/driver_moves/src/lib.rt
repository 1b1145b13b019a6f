//! A turn of a shared stack's driver, with the requests that others made within it, as moves of the one law.
//!
//! It promises that these are a list of moves that keeps the law, from the contract of the turn alone. What a run of many turns
//! comes to is left to the crates above.
#![tactic(auto)]

ghost use Rattle.std.specs.Prelude.{◌≡◌, true};
ghost use Rattle.turn_gate.specs.Pass.{knows};
ghost use Rattle.nvm_moves.specs.nvm_device_laws.Turn.{TellsSlots};
ghost use Rattle.nvm_shared.specs.Locked.{desk_with};
ghost use Rattle.nvm_shared.specs.Driving.{IsDriverOf};
ghost use Rattle.nvm_moves.specs.Moved.{HasMoved};
ghost use Rattle.driver_moves.specs.Driving.{seen_of};

pub use nvm_moves;
pub use nvm_moves::{
    AskFault, Config, Desk, Front, MemDevice, PlainSync, ReqResult, Request, Stack, SyncCalls,
    Turned, result_code,
};
pub use nvm_shared;
use nvm_shared::{Driver, NotedCopies, Shared, StackPass};
use std::sync::Wait;

/// A turn, by the law of a move, with the requests of others that came within it.
pub fn make_turn<W: Wait, D: MemDevice, C: NotedCopies + Drop>(
    rt: &W,
    shared: &Shared,
    pass: &mut StackPass,
    driver: &mut Driver<D, C>,
) -> Turned
    requires driver { IsDriverOf D.told D.clock C.told shared.now pass.old driver.old }
    requires telling { shared.now.terms.tells ≡ true → TellsSlots (D.told driver.old.device) }
    requires lock { C.is_of shared.now.gate }
    ensures moved { HasMoved true (seen_of D.told D.clock (desk_with shared.now.terms (knows pass.old).seen) driver.old) (seen_of D.told D.clock (desk_with shared.now.terms (knows pass.new).seen) driver.new) }
{
    let turned = shared.turn(rt, pass, driver);
    turned
}
