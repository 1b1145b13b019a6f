// Callers over mirrors of their synchronized blocks.
ghost use Rattle.std.specs.Prelude.{◌≡◌, ◌+◌, List, length, map, IfErr, IfOk};
ghost use Rattle.turn_gate.specs.Pass.{knows};
ghost use Rattle.driver_moves.specs.nvm_moves.script_walks.Words.{Step};
ghost use Rattle.driver_moves.specs.nv_desk_copies.Front.{AreSynchronized};
ghost use Rattle.driver_moves.specs.nvm_shared.Driving.{stack_of};
ghost use Rattle.driver_moves.specs.nvm_shared.Locked.{desk_with};
ghost use Rattle.ram_mirrors_sync.specs.Blocks.{AreEndsOf, AreIn, AreMade, AreSidesOf, told_by};
ghost use Rattle.nvm_callers.specs.Begun.{AreProgramsOf, IsBegun};
ghost use Rattle.nvm_callers.specs.Ran.{KeepsOrder, WasRun};

use crate::dealing::deal;
use crate::gathering::gather;
use crate::player::Ran;
use crate::{NoHold, run_callers};
use driver_moves::nvm_shared::{Driver, Known, Naming, Shared, StackPass};
use driver_moves::{Config, Front, MemDevice, PlainSync};
use ram_mirrors_sync::{Ends, MirrorSync, Mirrors, Sides, close, make};
use script_callers::Program;
use std::alloc::Global;
use std::sync::Wait;
use std::thread::Threads;

/// Runs these programs on a stack that is shared. The lock is the one that `J` names: its passes' knowledge goes along with stores.
pub fn run_programs<R: Threads + Wait + Sync, D: MemDevice, J: Naming + Send>(
    rt: &R,
    alloc: Global,
    config: &Config,
    shared: Shared,
    pass: StackPass,
    driver: Driver<D, PlainSync>,
    programs: &[Program],
) -> Result<Ran<D>, D>
    requires gate { shared.gate ≡ J.gate }
    requires begun { IsBegun D.told config.now shared pass driver }
    requires programs { (steps : List Step) × AreProgramsOf config.now steps programs.now }
    ensures memory { IfErr result (λ device. device ≡ driver.device) }
    ensures ran { IfOk result (λ r. WasRun D.told D.clock (stack_of (desk_with shared.terms (knows pass).seen) driver) r.ending r.desk r.device) }
    ensures order { IfOk result (λ r. (steps : List Step) → AreProgramsOf config.now steps programs.now → KeepsOrder steps r.ending r.desk) }
{
    match make::<Known<J>>(alloc, config) {
        Ok((mirrors, ends, sides)) => run_mirrored(
            rt,
            alloc,
            config.blocks() + 1,
            shared,
            pass,
            driver,
            programs,
            mirrors,
            ends,
            sides,
        ),
        Err(_) => {
            let (device, _copies, _hand) = driver.into_parts();
            Err(device)
        }
    }
}

// With mirrors before the first store, of which each program has the sides of the blocks that it stores into. The blocks are below
// `places`.
fn run_mirrored<R: Threads + Wait + Sync, D: MemDevice, J: Naming + Send>(
    rt: &R,
    alloc: Global,
    places: u16,
    shared: Shared,
    pass: StackPass,
    driver: Driver<D, PlainSync>,
    programs: &[Program],
    mirrors: Mirrors<Known<J>>,
    ends: Ends<Known<J>>,
    mut sides: Sides<Known<J>>,
) -> Result<Ran<D>, D>
    requires gate { shared.gate ≡ J.gate }
    requires begun { IsBegun D.told shared.terms.config shared pass driver }
    requires programs { (steps : List Step) × AreProgramsOf shared.terms.config steps programs.now }
    requires places { places ≡ length shared.terms.config.blocks + 1 }
    requires made { AreMade shared.terms.config mirrors ends sides }
    requires ends { AreEndsOf mirrors ends }
    requires sides { AreSidesOf mirrors sides × AreIn mirrors sides }
    requires synchronized { AreSynchronized shared.terms.config (map told_by ends) }
    ensures memory { IfErr result (λ device. device ≡ driver.device) }
    ensures ran { IfOk result (λ r. WasRun D.told D.clock (stack_of (desk_with shared.terms (knows pass).seen) driver) r.ending r.desk r.device) }
    ensures order { IfOk result (λ r. (steps : List Step) → AreProgramsOf shared.terms.config steps programs.now → KeepsOrder steps r.ending r.desk) }
{
    let Ok(stores) = deal(alloc, &mirrors, &mut sides, programs) else {
        let (device, _copies, _hand) = driver.into_parts();
        return Err(device);
    };
    let (driver, _copies) = driver.with_copies(MirrorSync::of(&mirrors, ends));
    let (pass, driver, ending, stores) = run_callers(
        rt, alloc, &shared, pass, driver, stores, programs, &NoHold,
    );
    let (device, copies, _hand) = driver.into_parts();
    gather(&mut sides, stores, places);
    let ends = copies.into_ends();
    close(mirrors, ends, sides);
    let Front { desk, .. } = shared.close(pass);
    Ok(Ran {
        ending,
        desk,
        device,
    })
}
