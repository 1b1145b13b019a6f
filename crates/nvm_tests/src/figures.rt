// Jobs that are finished over a device in memory.
use nvm_laws::memif::{DeviceRefusal, PlainStore, start_up};
use nvm_laws::nvm_figures::{AtWork, Brought, Finish, JobEnd, finish_job, turns_left};
use nvm_laws::{
    BlockDesc, BlockKind, Config, DeviceNumber, GivenFrom, JobKind, JobStep, ReqResult, demo,
    lengths_of,
};
use plain_blocks::PlainProgram;
use redundant_blocks::RedundantProgram;
use std::alloc::{AllocError, Global};

// The numbers of both copies of block 1, and of block 2.
fn make_device(alloc: Global) -> Result<PlainStore, AllocError> {
    let numbers = lengths_of(
        alloc,
        &[
            (DeviceNumber(64), 2),
            (DeviceNumber(65), 2),
            (DeviceNumber(128), 4),
        ],
    )?;
    PlainStore::make(alloc, &numbers)
}

// Whether a job was done in so many turns.
fn is_done_in(turns: u64, finished: &Result<Finish, DeviceRefusal>) -> bool {
    let Ok(finished) = finished else {
        return false;
    };
    let fine = matches!(
        finished.end,
        JobEnd::Over {
            result: ReqResult::Fine,
            source: GivenFrom::Nothing
        }
    );
    fine && finished.turns == turns
}

const URGENT: Brought = Brought {
    length: 4,
    content: b"abcd",
    urgent: true,
};

const CALM: Brought = Brought {
    length: 2,
    content: b"ab",
    urgent: false,
};

// Whether an urgent write of block 2 of the demo takes one turn.
#[tactic(auto, using(nvm_laws::proofs::nvm_figures::FinishedJobs::programs_are_placed))]
fn takes_one(device: &mut PlainStore, desc: &BlockDesc) -> bool {
    if desc.kind == BlockKind::Redundant || start_up(device).is_err() {
        return false;
    }
    let mut program = PlainProgram::begin(desc, 2, 0, JobKind::Write);
    is_done_in(1, &finish_job(device, &mut program, &URGENT))
}

// Whether a write of block 1, which is redundant, takes two.
#[tactic(auto, using(nvm_laws::proofs::nvm_figures::FinishedJobs::programs_are_placed))]
fn takes_two(device: &mut PlainStore, desc: &BlockDesc) -> bool {
    if desc.kind != BlockKind::Redundant || start_up(device).is_err() {
        return false;
    }
    let mut program = RedundantProgram::begin(desc, 1, 0, JobKind::Write);
    is_done_in(2, &finish_job(device, &mut program, &CALM))
}

fn take_their_turns(device: &mut PlainStore, config: &Config) -> bool {
    let Some(redundant) = config.block(1) else {
        return false;
    };
    let Some(plain) = config.block(2) else {
        return false;
    };
    takes_one(device, plain) && takes_two(device, redundant)
}

// Whether the jobs of a demo take their turns.
fn are_done(alloc: Global) -> Result<bool, AllocError> {
    let config = demo(alloc)?;
    let mut device = make_device(alloc)?;
    Ok(take_their_turns(&mut device, &config))
}

#[test]
fn a_job_takes_a_turn_for_each_instance(rt: HostRuntime) {
    assert!(rt; matches!(are_done(rt.alloc()), Ok(true)));
}

// Whether a job that is over has its Post left.
fn has_its_post_left(device: &PlainStore) -> bool {
    let over = AtWork {
        step: JobStep::Ended {
            result: ReqResult::Fine,
            source: GivenFrom::Nothing,
        },
        failures: 0,
        retries: 1,
        copies: false,
    };
    turns_left(device, Some(over)) == 1 && turns_left(device, None) == 0
}

fn is_left(alloc: Global) -> Result<bool, AllocError> {
    Ok(has_its_post_left(&make_device(alloc)?))
}

#[test]
fn a_job_that_is_over_has_its_post_left(rt: HostRuntime) {
    assert!(rt; matches!(is_left(rt.alloc()), Ok(true)));
}
