// The steps of a run on the stack over what is handed in, whatever that is.
ghost use Rattle.std.specs.Prelude.{IfErr, IfOk};
ghost use Rattle.nvm_flash.specs.nv_base.Geometry.{size_of};
ghost use Rattle.nvm_script.specs.Played.{ArePlayed};
ghost use Rattle.script_player.specs.Made.{cuts_of};
ghost use Rattle.nvm_top.specs.Flashes.{WereMade};
ghost use Rattle.nvm_top.specs.Play.{IsRightSize};

use crate::flashes::Flashes;
use crate::script::Script;
use nvm_flash::{MemDevice, PlainSync, Stack};
use nvm_lines::Stop;
use script_player::{StepFault, cuts_of, make_steps};
use std::alloc::Global;

/// How steps ended, and the stack behind them.
#[derive(Drop)]
pub struct Made<D: MemDevice> {
    pub end: Result<(), StepFault>,
    pub stack: Stack<D, PlainSync>,
}

/// Makes steps on the stack of a configuration, from its first start-up on.
pub fn make_run<P: Flashes>(
    alloc: Global,
    script: Script,
    handed: P,
) -> Result<Made<P::Device>, (Stop, P)>
    requires origin { P.is_origin script.config (P.told handed) (cuts_of script.steps) }
    requires played { ArePlayed script.config script.steps }
    ensures made { IfOk result (λ m. WereMade P.Device.told P.Device.clock P.before script.config (cuts_of script.steps) script.steps m.end m.stack) }
    ensures size { IfOk result (λ _. IsRightSize (size_of script.config.geometry) (P.told handed).flash.bytes) }
    ensures stopped { IfErr result (λ e. P.stops script.config (P.told handed) (P.told e.1) e.0) }
{
    let Script { config, steps } = script;
    let blocks = config.blocks();
    match handed.start(alloc, config, cuts_of(&steps)) {
        Ok(mut stack) => {
            let end = make_steps(alloc, steps, blocks, &mut stack);
            Ok(Made { end, stack })
        }
        Err(stopped) => Err(stopped),
    }
}
