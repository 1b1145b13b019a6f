//! A UDS gateway to the NVRAM Manager: ReadDataByIdentifier and WriteDataByIdentifier of ISO 14229-1 over a stack.
//!
//! It promises that each answer is the one of its table, over the entries that the request's job added. What reads the
//! requests, and what becomes of the answers, is left to the crates above.
#![tactic(auto)]

mod answer;
mod asked;
mod cases;
mod code;
mod decided;
mod job;
mod laws;
mod serving;
mod stop;
mod turning;

pub use asked::{AskedFault, asked_by, length_of};
pub use cases::{answers_by_the_table, answers_wait_for_the_post, requests_ask_for_jobs};
pub use code::NegativeCode;
pub use decided::piece_answer;
pub use job::{ask, make_job};
pub use laws::{codes_come_by_their_cases, failures_have_causes};
pub use nvm_moves::{
    AskFault, Bytes, Config, FoundAnswer, LentRequest, MemDevice, PlainSync, Reply, Request,
    RequestKind, Stack, Turned,
};
pub use serving::serve;
pub use stop::ServeStop;
pub use turning::turn;
