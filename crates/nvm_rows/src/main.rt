//! The program `nvm_rows`, for tests: worked cases as text. It reads them, calls the command of each in memory, and prints what was
//! written, the status, and the bytes of the flash that aren't erased at the end, but for a quiet case. Where a case says so, its
//! script is run again with power cuts, faults and steps at each place, and each start-up is judged by the history before it; or
//! it is played over a device in memory.
//!
//! A further case costs no proof: its lines go into `stdin`, and what it must print into `stdout`. What a line means
//! stands in `docs/CONTRIBUTING.md`. It promises nothing of its own.
#![tactic(auto)]

mod between;
mod call;
mod callers;
mod case;
mod counted;
mod everywhere;
mod faults;
mod judged;
mod lines;
mod memory;
mod plain;
mod ranges;
mod run;
mod show;
mod show_stack;
mod spots;
mod stack;
mod trials;

use run::run_all;

fn main(rt: HostRuntime) -> anyhow::Result<()> {
    run_all(&rt)
}
