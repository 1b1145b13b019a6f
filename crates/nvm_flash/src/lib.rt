//! The stack of a configuration over a flash whose power may be cut, or over a flash and an EEPROM: how it is made and started, and
//! how the flash, or both, come back.
//!
//! It promises that the stack behind its first start-up is of this configuration and this flash, that a flash that
//! comes back without one is as it was, or attached, and that what the stack's device told holds of the flash within
//! the cutter; and so it is of each of two. What is done with the stack is left to the crates above.
#![tactic(auto)]

mod back;
mod device;
mod pair;
mod pair_stack;
mod sized;
mod stack;

pub use back::give_back;
pub use device::{MakeFault, make_device};
pub use fls_devices::{Cutter, FaultScript};
pub use memif_fee_ea::ea_slots;
pub use memif_fee_ea::fee_core::{
    AttachFault, Bytes, Entry, Fee, Flash, FlashAnswer, Geometry, History, MemDevice, MemFlash,
    Origin, PlainStore, Refusal, Reply, ReqResult, Request, SizedFlash, bytes_of, mem_flash,
    refusal_number, result_code,
};
pub use nvm_core::{
    AskFault, BlockDesc, BlockKind, Buffer, Config, ConfigFault, ENDLESS, Event, FoundAnswer,
    FoundMarks, Last, LentRequest, MarkKind, PlainSync, RamKind, Renewed, RequestKind, Stack,
    TakenKind, Turned, longest_content, read,
};
pub use pair::{PairCuts, PairDevice, PairFault, give_pair_back, make_pair};
pub use pair_stack::{PairStack, make_pair_stack, start_pair_stack};
pub use promise_run::CAP;
pub use stack::{FlashStack, make_stack, make_stack_with, start_stack, start_stack_with};
