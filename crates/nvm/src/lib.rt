//! The face of the library: all that a program names to keep its blocks over a flash of its own.
//!
//! A program has a [`Flash`], reads its [`Config`] by [`read`], and hands both with its [`Unit`] to [`run_unit`], which makes the
//! stack, starts it up, lets the unit run, and gives the flash back. The unit asks for what it wants ([`Request`], answered by a
//! [`Reply`] or an [`AskFault`]), makes one turn a cycle ([`Turned`]), and looks at statuses ([`ReqResult`]) and RAM, which costs
//! nothing. What is promised of each call stands with it; `docs/EMBEDDING.md` goes through a whole program, `unit_example`.
//! Nothing is made here but that one call: all else is passed on from the crates below.
#![tactic(auto)]

mod unit;
mod unit_stack;

pub use nvm_flash::{
    AskFault, AttachFault, BlockDesc, BlockKind, Buffer, Bytes, Config, ConfigFault, Cutter,
    ENDLESS, Entry, Event, Flash, FlashAnswer, FlashStack, FoundAnswer, FoundMarks, Geometry,
    History, Last, LentRequest, MakeFault, MarkKind, MemDevice, MemFlash, Origin, RamKind, Refusal,
    Renewed, Reply, ReqResult, Request, RequestKind, TakenKind, Turned, bytes_of, longest_content,
    make_stack, mem_flash, read, refusal_number, result_code, start_stack,
};
pub use unit::{Unit, run_unit};
pub use unit_stack::UnitStack;
