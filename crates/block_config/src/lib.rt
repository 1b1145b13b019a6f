//! The configuration of the NVRAM Manager: its blocks, its queues and the shape of its flash, and how it is read from
//! a line of JSON.
//!
//! It promises that every configuration keeps the rules, so that all instances of the first device, two of the greatest
//! and two immediate writes have room in one bank, and those of the second one in its sectors, and that a line is refused
//! exactly where it breaks a rule, with the first one. What requests and jobs do with a block is left to the crates above.
#![tactic(auto)]

mod block;
mod config;
mod content;
mod demo_config;
mod description;
mod digits;
mod fault;
mod field;
mod head;
mod item;
mod items;
mod lengths;
mod reading;
mod rom_list;
mod second;
mod sizes;
mod values;

pub use block::{BlockDesc, BlockKind, RamKind};
pub use config::Config;
pub use content::{content_len, read_content};
pub use demo_config::demo;
pub use fault::ConfigFault;
pub use reading::read;
pub use rom_list::RomList;
