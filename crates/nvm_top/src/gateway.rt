// What `uds` reads: a configuration, and requests.
ghost use Rattle.std.specs.Prelude.{◌≡◌, ◌≤◌, ◌<◌, Err, IfOk, IfErr, IfSome, OnOk, length};
ghost use Rattle.std.specs.Io.KnownBytes.{IsAtEnd};
ghost use Rattle.nvm_flash.specs.nv_base.Count.{Rose};
ghost use Rattle.nvm_script.specs.Script.{later_lines};
ghost use Rattle.uds_script.specs.Requests.{IsRequests};
ghost use Rattle.nvm_top.specs.Reading.{IsEarly};
ghost use Rattle.nvm_top.specs.Uds.{HasRequests, IsGatewayStop, IsRequestsStop, IsUdsStop};

use nvm_flash::Config;
use nvm_lines::nv_streams::Source;
use nvm_lines::{LIMIT, Stop, read_config, read_input};
use nvm_script::ScriptFault;
use std::alloc::Global;
use uds_script::{RequestList, read_requests};

/// A configuration twice, for the stack and for its gateway, and requests.
#[derive(Drop)]
pub struct Gateway {
    pub config: Config,
    pub own: Config,
    pub requests: RequestList,
}

/// The configuration and the requests of the input.
pub fn read_gateway<S: Source>(alloc: Global, input: &mut S) -> Result<Gateway, Stop>
    ensures requests { IfOk result (λ p. IfSome (S.left input.old) (λ bytes. HasRequests bytes p.config p.requests)) }
    ensures own { IfOk result (λ p. p.own ≡ p.config) }
    ensures end { OnOk result (IsAtEnd (S.left input.new)) }
    ensures err { IfErr result (IsUdsStop (S.left input.old)) }
    ensures early { IfErr result IsEarly }
    ensures read_fault { result ≡ Err Stop.ReadFault → Rose (S.faults input.old) (S.faults input.new) }
{
    let bytes = read_input(alloc, input)?;
    let gateway = gateway_of(alloc, &bytes)?;
    Ok(gateway)
}

fn gateway_of(alloc: Global, input: &[u8]) -> Result<Gateway, Stop>
    requires short { length input.now ≤ LIMIT }
    ensures requests { IfOk result (λ p. HasRequests input.now p.config p.requests) }
    ensures own { IfOk result (λ p. p.own ≡ p.config) }
    ensures err { IfErr result (IsGatewayStop input.now) }
    ensures early { IfErr result IsEarly }
{
    let config = read_config(alloc, input)?;
    let own = config.copied(alloc)?;
    let requests = requests_of(alloc, input)?;
    Ok(Gateway {
        config,
        own,
        requests,
    })
}

fn requests_of(alloc: Global, input: &[u8]) -> Result<RequestList, Stop>
    requires short { length input.now < u32.MAX }
    ensures ok { IfOk result (λ requests. IsRequests 2 (later_lines input.now) requests) }
    ensures err { IfErr result (IsRequestsStop (later_lines input.now)) }
{
    match read_requests(alloc, input) {
        Ok(requests) => Ok(requests),
        Err(ScriptFault::Line { number }) => Err(Stop::BadScript { line: number }),
        Err(ScriptFault::Memory) => Err(Stop::Memory),
    }
}
