//! Flashes over a flash: power cuts on purpose, and scripted faults. It promises which operation is cut or fails and what it
//! leaves, over any flash and in any order, and the list of all changes where the inner flash tells its own. What a flash
//! is stands in `fls_model`.
#![tactic(auto)]

mod cutter;
mod fault_script;
mod journal;
mod overlay;
mod part;
mod since;

pub use cutter::Cutter;
pub use fault_script::FaultScript;
