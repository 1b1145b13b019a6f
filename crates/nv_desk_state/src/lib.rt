//! What the desk keeps of the block machine's state: blocks, pending jobs, the job in hand, a request on all blocks,
//! the power.
//!
//! It promises that what is kept stays the machine's through each change that a request, a start-up, a Pick, a Wrote, a
//! Post or an Off makes, and that what comes next is what the machine turns to. The history, the replies, and when each
//! entry may come, are left to `nv_desk`.
#![tactic(auto)]

mod described;
mod driver_steps;
mod kept;
mod next;
mod next_step;
mod shares;
mod sweep;
mod sweep_steps;

pub use described::{
    datasets, has_no_defaults, has_no_ram, is_dataset, is_once, is_permanent, length, priority,
    records, stored,
};
pub use kept::Kept;
pub use next::NextEntry;
pub use shares::{member_entries, sweep_share};
pub use sweep::PendingSweep;
