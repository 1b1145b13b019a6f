// A sweep: each call once.
use multi_jobs::{MemberFacts, Sweep, SweepStep};
use nvm_laws::{Config, JobKind, demo};
use std::alloc::Global;

const FACTS: MemberFacts = MemberFacts {
    locked: false,
    protected: false,
    valid: true,
    changed: false,
    rom_index: false,
};

// Whether the first member of a WriteAll that is canceled then is skipped.
fn skips_its_first(config: &Config) -> bool {
    let mut sweep = Sweep::begin(JobKind::WriteAll);
    let first = sweep.peek(config);
    let step = sweep.next(config, None, false, FACTS);
    sweep.cancel();
    matches!(first, Some(2)) && matches!(step, SweepStep::Skip { block: 2 }) && !sweep.can_cancel()
}

fn skips_a_member(alloc: Global) -> bool {
    match demo(alloc) {
        Ok(config) => skips_its_first(&config),
        Err(_) => false,
    }
}

#[test]
fn a_sweep_has_its_members(rt: HostRuntime) {
    assert!(rt; skips_a_member(rt.alloc()));
}
