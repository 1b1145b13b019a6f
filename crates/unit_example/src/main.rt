//! Two control units. An odometer over a flash of its own, whose kilometres outlive a power cut; and a recorder of crashes that runs for
//! as many requests as the program's word says. It names one crate, `nvm`; `docs/EMBEDDING.md` goes through it.
#![tactic(auto)]

mod crash_recorder;
mod odometer;
mod worn_flash;

use crash_recorder::CrashRecorder;
use nvm::{Config, mem_flash, read, run_unit};
use odometer::{Odometer, SHUTDOWN};
use std::alloc::Global;
use std::{env, io};
use worn_flash::WornFlash;

/// The odometer's blocks, and the shape of its flash. `tools/plan` says how long what takes.
const ODOMETER: &str =
    r#"{"id":7,"page":16,"sector":256,"sectors":8,"standard":4,"immediate":1,"blocks":[{"length":1,"ram":"permanent","readall":true,"writeall":true,"resistant":true,"defaults":"00"}]}"#;

/// The recorder's.
const RECORDER: &str =
    r#"{"id":8,"page":16,"sector":1024,"sectors":8,"standard":4,"immediate":2,"blocks":[{"length":256},{"length":4,"priority":0}]}"#;

/// How many requests the recorder makes where no word says so.
const FEW: u32 = 200;

/// A configuration; what is wrong with it is printed.
fn configured(rt: &HostRuntime, alloc: Global, text: &str) -> io::Result<Option<Config>> {
    match read(alloc, text.as_bytes()) {
        Ok(config) => Ok(Some(config)),
        Err(fault) => {
            println!(rt; "{fault}")?;
            Ok(None)
        }
    }
}

/// One life of the odometer, from switching on to switching off or a power cut. The flash outlives it.
fn live(
    rt: &HostRuntime,
    alloc: Global,
    flash: WornFlash,
    odometer: &mut Odometer,
) -> io::Result<Option<WornFlash>> {
    let Some(config) = configured(rt, alloc, ODOMETER)? else {
        return Ok(None);
    };
    match run_unit(alloc, config, flash, 1, odometer) {
        Ok(flash) => {
            println!(rt;
                "found {} km, stored {} km",
                odometer.found, odometer.stored
            )?;
            match odometer.shutdown {
                Some(cycles) => println!(rt; "shut down in {cycles} of at most {SHUTDOWN} cycles")?,
                None => println!(rt; "the power was cut")?,
            }
            println!(rt; "{} erases so far", flash.erases())?;
            Ok(Some(flash))
        }
        Err((fault, _)) => {
            println!(rt; "{fault}")?;
            Ok(None)
        }
    }
}

/// The two lives of the odometer.
fn drive(rt: &HostRuntime, alloc: Global) -> io::Result<()> {
    let flash = WornFlash::over(mem_flash(alloc, &[], 0)?);
    // The power is cut in the write of the third kilometre ..
    let mut first = Odometer::make(3, 3);
    if let Some(flash) = live(rt, alloc, flash, &mut first)? {
        // .. and the next life goes on from the second one.
        let mut second = Odometer::make(2, 0);
        live(rt, alloc, flash, &mut second)?;
    }
    Ok(())
}

/// The life of a recorder that makes so many requests.
fn record(rt: &HostRuntime, alloc: Global, requests: u32) -> io::Result<()> {
    let Some(config) = configured(rt, alloc, RECORDER)? else {
        return Ok(());
    };
    let mut recorder = CrashRecorder::make(requests);
    match run_unit(alloc, config, mem_flash(alloc, &[], 0)?, 0, &mut recorder) {
        Ok(_) => println!(rt;
            "{} requests, {} stored, {} interrupted a write of the log",
            recorder.accepted, recorder.stored, recorder.interrupted
        ),
        Err((fault, _)) => println!(rt; "{fault}"),
    }
}

/// How many requests the recorder makes, where a word says so.
fn requests_asked(rt: &HostRuntime) -> io::Result<Option<u32>> {
    let mut words = env::args(rt)?.skip(1);
    match words.next() {
        Some(word) => Ok(word.parse::<u32>().ok()),
        None => Ok(None),
    }
}

fn main(rt: HostRuntime) -> io::Result<()> {
    let alloc = rt.alloc();
    match requests_asked(&rt)? {
        Some(requests) => record(&rt, alloc, requests),
        None => {
            drive(&rt, alloc)?;
            record(&rt, alloc, FEW)
        }
    }
}
