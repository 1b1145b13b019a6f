//! The memory device over a flash and an EEPROM: one over the banks of the flash, and one over paired slots, behind one interface.
//!
//! It promises that the two, made of numbers that are apart, are one memory device, by the floor's whole contract. What each call
//! does to the two is left to `memif_pair`, and which numbers are whose to those above.
#![tactic(auto)]

mod making;

pub use ea_slots;
pub use fee_core;
pub use fee_core::{
    DeviceCall, DeviceNumber, DeviceRefusal, DeviceStep, DeviceTurn, Flash, Geometry, JobResult,
    Lengths, MemDevice, MemFlash, MemIf, PlainMark, PlainStore, Rest, bytes_of, erase, lengths_of,
    make_turns, mem_flash, run_calls, start_up,
};
pub use making::{FlashAndEeprom, PairAttachFault, PairPart, Shapes, both_of, make};
pub use memif_pair;
