// The command `uds`: the requests of a UDS gateway over one flash, with their answers.
ghost use Rattle.std.specs.Prelude.{◌≡◌, ◌⊎◌, ℕ, List, Option};
ghost use Rattle.nvm_flash.specs.nv_base.Count.{Rose};
ghost use Rattle.nvm_flash.specs.Made.{IsOrigin};
ghost use Rattle.uds_script.specs.Requests.{HaveBytes};
ghost use Rattle.nvm_top.specs.Causes.{HasCauses};
ghost use Rattle.nvm_top.specs.Play.{IsBeforeAttach, IsFlashStop};
ghost use Rattle.nvm_top.specs.Promised.{HasNoRun, played_call};
ghost use Rattle.nvm_top.specs.Uds.{HasAnswered, HasServing, UdsStopsBy};

use crate::answers::{stopped_serving, write_served};
use crate::flashes::Flashes;
use crate::gateway::{Gateway, read_gateway};
use crate::served::{Served, serve_run};
use crate::stack::OneFlash;
use crate::values::history_values;
use nvm_flash::{Bytes, Config, Flash, Origin};
use nvm_lines::nv_streams::{Sink, Source};
use nvm_lines::{Status, report};
use std::alloc::Global;
use std::marker::{Brand, PhantomData};

/// The command behind its words.
pub(crate) fn uds<S: Source, K: Sink, F: Flash>(
    alloc: Global,
    input: &mut S,
    output: &mut K,
    flash: F,
) -> (Status, F)
    ensures promise { HasAnswered (S.left input.old) result.0 (played_call (S.left input.old) result.0 (F.told flash) (F.told result.1) (K.written output.old) (K.written output.new))
        ⊎ HasNoRun (UdsStopsBy (S.left input.old) (S.faults input.old) (S.faults input.new) (F.told flash).bytes) (K.written output.old) (K.written output.new) result.0 (F.told flash) (F.told result.1) }
    ensures causes { HasCauses result.0 (S.faults input.old) (S.faults input.new) (K.faults output.old) (K.faults output.new) (S.left input.new) }
    ensures untouched { IsBeforeAttach result.0 → F.told result.1 ≡ F.told flash }
{
    match read_gateway(alloc, input) {
        Ok(gateway) => serve_flash(alloc, gateway, output, flash),
        Err(stop) => (report(alloc, stop, output), flash),
    }
}

// Serves requests on a flash, and writes their history with their answers.
fn serve_flash<K: Sink, F: Flash>(
    alloc: Global,
    gateway: Gateway,
    output: &mut K,
    flash: F,
) -> (Status, F)
    requires own { gateway.own ≡ gateway.config }
    ensures promise { (input : Option (List ℕ))
        → HasServing gateway.config gateway.requests (played_call input result.0 (F.told flash) (F.told result.1) (K.written output.old) (K.written output.new)) result.0
        ⊎ HasNoRun (IsFlashStop gateway.config (F.told flash).bytes) (K.written output.old) (K.written output.new) result.0 (F.told flash) (F.told result.1) }
    ensures late { IsBeforeAttach result.0 → ⊥ }
    ensures write_fault { result.0 ≡ Status.WriteFault → Rose (K.faults output.old) (K.faults output.new) }
{
    let Gateway {
        config,
        own,
        requests,
        ..
    } = gateway;
    serve_over::<K, F, Brand>(alloc, config, &own, requests.as_slice(), output, flash)
}

// So over the stack of a device of this origin.
fn serve_over<K: Sink, F: Flash, O: Origin>(
    alloc: Global,
    config: Config,
    own: &Config,
    requests: &[Bytes],
    output: &mut K,
    flash: F,
) -> (Status, F)
    requires origin { IsOrigin config (F.told flash) 0 O.making O.entry }
    requires own { own.now ≡ config }
    requires some { HaveBytes requests.now }
    ensures promise { (input : Option (List ℕ))
        → HasServing config requests.now (played_call input result.0 (F.told flash) (F.told result.1) (K.written output.old) (K.written output.new)) result.0
        ⊎ HasNoRun (IsFlashStop config (F.told flash).bytes) (K.written output.old) (K.written output.new) result.0 (F.told flash) (F.told result.1) }
    ensures late { IsBeforeAttach result.0 → ⊥ }
    ensures write_fault { result.0 ≡ Status.WriteFault → Rose (K.faults output.old) (K.faults output.new) }
{
    let handed = OneFlash::<F, O> {
        flash,
        origin: PhantomData,
    };
    match serve_run(alloc, config, own, requests, handed) {
        Ok(Served { counts, end, stack }) => {
            let history = stack.history();
            history_values(history);
            let run = stopped_serving(end);
            let status = write_served(alloc, own, requests, &counts, run, history, output);
            let device = stack.into_device();
            let OneFlash { flash, .. } = OneFlash::<F, O>::back(device);
            (status, flash)
        }
        Err((stop, OneFlash { flash, .. })) => (report(alloc, stop, output), flash),
    }
}
