//! The face of the stack for C: a static library whose calls open a unit over memory that C lends, serve its requests, make its
//! turns and give the memory back.
//!
//! It promises of each call what the stack's own call promises, of what the handle keeps; that the memory holds the flash's bytes
//! while the unit has it, byte for byte; and, where it is given back, that a run whose history the unit had keeps the promise. The
//! standard's names, RAM blocks and callbacks are left to `c/shim`, and what C owes the calls stands in `docs/C.md`.
#![tactic(auto)]

mod filled;
mod handle;
mod looks;
mod room;
mod services;
mod sound_image;
mod standing;
mod texts;
mod turns;
mod unit;
mod unit_opening;
mod work;

pub use handle::Handle;
pub use looks::{
    nvm_block, nvm_entries, nvm_given, nvm_line, nvm_ram, nvm_ram_is_valid, nvm_status,
};
pub use room::Room;
pub use services::nvm_ask;
pub use standing::LineFault;
pub use texts::{BlockFacts, nvm_check};
pub use turns::{nvm_close, nvm_cut, nvm_open, nvm_restart, nvm_turn};
pub use unit::LentUnit;
pub use work::{Outcome, UnitWork, serve};
