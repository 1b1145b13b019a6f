//! The law of a move, once, over told values: what a request, a turn, a start-up and a planned cut do, and any number of them.
//!
//! It promises that whatever was made between two moments is one list of moves, in which each keeps the law, and that such
//! lists join. All are lemmas, and nothing here runs: which call makes which moves is left to the crates above.
#![tactic(auto)]

pub use nvm_core::{
    AskFault, Bytes, Config, Desk, Entry, Event, FoundAnswer, Front, History, Last, LentRequest,
    MemDevice, PlainSync, Reply, ReqResult, Request, RequestKind, Stack, SyncCalls, Turned,
    bytes_of, result_code,
};
