// Requests of a UDS gateway, one after another on a stack.
ghost use Rattle.std.specs.Prelude.{◌≡◌, ◌<◌, ◌≤◌, List, [], All, true, length};
ghost use Rattle.uds_gateway.specs.memif.Told.{Part, PartTold};
ghost use Rattle.uds_gateway.specs.Jobs.{HasNone};
ghost use Rattle.script_player.specs.Told.{state_of};
ghost use Rattle.script_player.specs.Made.{IsFresh};
ghost use Rattle.script_player.specs.Requests.{IsServing, EndsRequest, HasServed};
ghost use Rattle.script_player.specs.PlainTold.{told_by};
ghost use Rattle.script_player.specs.PlainKept.{kept_by, starts_found};
ghost use Rattle.script_player.specs.PlainPaying.{seen_by};
ghost use Rattle.uds_gateway.specs.ram_blocks.declared.plain_block.PlainBlock.{PlainBlock};
ghost use Rattle.uds_gateway.specs.nvm_core.Stack.{StackState};

use std::alloc::Global;
use uds_gateway::{
    AskedFault, Bytes, Config, MemDevice, PlainSync, ServeStop, Stack, asked_by, make_job,
};

/// Serves requests in order on a stack behind its first start-up, of this configuration, as caller 0: each that asks for
/// something to its Post. Adds the number of its entries for each that has its answer; the memory for it is taken before its Ask.
pub fn serve_requests<D: MemDevice>(
    alloc: Global,
    config: &Config,
    requests: &[Bytes],
    counts: &mut Vec<u32>,
    stack: &mut Stack<D, PlainSync>,
) -> Result<(), ServeStop>
    requires configuration { stack.old.desk.config ≡ config.now }
    requires some { All (λ request. 0 < length request) requests.now }
    requires none { counts.old.items ≡ [] }
    requires fresh { IsFresh (told_by D.told stack.old) }
    ensures served { HasServed (seen_by D.told D.clock stack.old) (seen_by D.told D.clock stack.new) requests.now counts.new.items result (told_by D.told stack.old) (told_by D.told stack.new) }
    ensures configuration { stack.new.desk.config ≡ stack.old.desk.config }
    ensures most { stack.new.desk.cap ≡ stack.old.desk.cap }
    ensures counted { (told_by D.told stack.old).faults ≤ (told_by D.told stack.new).faults }
    ensures keeps { (before : Part → PartTold) → kept_by D.told D.clock stack.old before → kept_by D.told D.clock stack.new before }
    ensures starts { starts_found D.told stack.old → starts_found D.told stack.new }
{
    for i in 0..requests.len() {
        if counts.reserve(1).is_err() {
            return Err(ServeStop::Memory);
        }
        let before = stack.len();
        if let Err(stop) = serve_request(alloc, config, requests[i].as_slice(), stack) {
            return Err(stop);
        }
        counts.push_reserved(stack.len() - before);
    }
    Ok(())
}

// One of them: its job, where it asks for something.
fn serve_request<D: MemDevice>(
    alloc: Global,
    config: &Config,
    request: &[u8],
    stack: &mut Stack<D, PlainSync>,
) -> Result<(), ServeStop>
    requires some { 0 < length request.now }
    requires ready { stack.old.ready ≡ true }
    requires none { HasNone (state_of (told_by D.told stack.old)) }
    ensures ends { (first : StackState D (List PlainBlock)) → IsServing (seen_by D.told D.clock first) (seen_by D.told D.clock stack.old) (told_by D.told first) (told_by D.told stack.old)
        → EndsRequest config.now request.now (seen_by D.told D.clock first) (seen_by D.told D.clock stack.new) result (told_by D.told first) (told_by D.told stack.old) (told_by D.told stack.new) }
    ensures keeps { (before : Part → PartTold) → kept_by D.told D.clock stack.old before → kept_by D.told D.clock stack.new before }
    ensures starts { starts_found D.told stack.old → starts_found D.told stack.new }
{
    match asked_by(alloc, config, request) {
        Ok(asked) => match make_job(alloc, asked, stack) {
            Ok(_reply) => Ok(()),
            Err(stop) => Err(stop),
        },
        Err(AskedFault::Refused(_code)) => Ok(()),
        Err(AskedFault::Memory) => Err(ServeStop::Memory),
    }
}
