//! The memory device over an EEPROM of paired slots (SWS EEPROM Abstraction).
//!
//! It promises all that a memory device promises, with turns of at most one flash call, and that what it tells of its flash
//! is so, from its making on. What the bytes mean is left to `ea_image`; that a configuration leaves it the sectors is left
//! to those above.
#![tactic(auto)]

mod calls;
mod content;
mod device;
mod ea;
mod jobs;
mod origin;
mod parts;
mod reads;
mod shown;
mod starts;
mod states;
mod steps;
mod turns;
mod writes;

pub use ea::Ea;
pub use ea_told;
pub use origin::Origin;
