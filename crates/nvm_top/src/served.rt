// The requests of a gateway on the stack over what is handed in, whatever that is.
ghost use Rattle.std.specs.Prelude.{◌≡◌, IfErr, IfOk};
ghost use Rattle.nvm_flash.specs.nv_base.Geometry.{size_of};
ghost use Rattle.uds_script.specs.Requests.{HaveBytes};
ghost use Rattle.nvm_top.specs.Flashes.{WereServed};
ghost use Rattle.nvm_top.specs.Play.{IsRightSize};

use crate::flashes::Flashes;
use nvm_flash::{Bytes, Config, MemDevice, PlainSync, Stack};
use nvm_lines::Stop;
use script_player::serve_requests;
use script_player::uds_gateway::ServeStop;
use std::alloc::Global;

/// How many entries each request has that was answered, how they ended, and the stack behind them.
#[derive(Drop)]
pub struct Served<D: MemDevice> {
    pub counts: Vec<u32>,
    pub end: Result<(), ServeStop>,
    pub stack: Stack<D, PlainSync>,
}

/// Serves requests on the stack of a configuration, from its first start-up on.
pub fn serve_run<P: Flashes>(
    alloc: Global,
    config: Config,
    own: &Config,
    requests: &[Bytes],
    handed: P,
) -> Result<Served<P::Device>, (Stop, P)>
    requires origin { P.is_origin config (P.told handed) 0 }
    requires own { own.now ≡ config }
    requires some { HaveBytes requests.now }
    ensures served { IfOk result (λ m. WereServed P.Device.told P.Device.clock P.before config requests.now m.counts.items m.end m.stack) }
    ensures size { IfOk result (λ _. IsRightSize (size_of config.geometry) (P.told handed).flash.bytes) }
    ensures stopped { IfErr result (λ e. P.stops config (P.told handed) (P.told e.1) e.0) }
{
    match handed.start(alloc, config, 0) {
        Ok(mut stack) => {
            let mut counts = Vec::new(alloc);
            let end = serve_requests(alloc, own, requests, &mut counts, &mut stack);
            Ok(Served { counts, end, stack })
        }
        Err(stopped) => Err(stopped),
    }
}
