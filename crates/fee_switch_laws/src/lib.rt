//! Laws of a switch of banks: what the banks in memory are for the bytes of their flash, and the room that they keep.
//!
//! They say that a sound flash holds the banks behind a start-up, each erase, copy, head and gate and each append
//! beside them, done, failed or cut, that a start-up finds what may be found then, and that each step of a switch may
//! be made and makes room for the record that waits. They are lemmas, and no function stands here; which call comes next
//! is left to the crates above.
#![tactic(auto)]

pub use fee_log::{Log, LogStep};
pub use fee_switch::{BankBegin, BankStart, Banks, Phase};
