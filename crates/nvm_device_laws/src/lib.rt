//! Laws of a history over any memory device: what it keeps, entry by entry and call by call.
//!
//! They tie the block machine's state to what a device tells: which marks it holds, what a power cut may leave, and
//! which entry a call of the device asks for. All are lemmas, and nothing here runs. Who makes the entries, and which
//! tries are whose, is left to the stack.
#![tactic(auto)]
