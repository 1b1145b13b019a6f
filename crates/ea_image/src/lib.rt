//! What the bytes of an EEPROM of paired slots mean: the head and the gate of a slot, the slot of two that counts, and
//! what each instance holds.
//!
//! It promises a writer and a reader of heads that are exact inverses of each other, that all of this computes from any
//! bytes, and that a program or an erase in one slot, done, failed or cut, leaves what every other slot holds, makes no
//! other head and keeps a sound image sound: these are lemmas. Its functions that do nothing are worked cases. The
//! program that writes slots is left to `ea_slots`.
#![tactic(auto)]

mod cases;
mod memory;
mod slot_head;
mod step;
mod which;

pub use cases::{both_stand, first_write, second_write_cut, sound_or_not, torn_head};
pub use fee_format::RecordKind;
pub use memory::{SlotMemory, has_next, newest, sequence_next, slot_standing};
pub use slot_head::{LAST_SEQUENCE, SlotHead, read_slot_head, write_slot_head};
pub use step::{SlotStep, step_next, steps_left};
pub use which::Which;
