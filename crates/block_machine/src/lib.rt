//! The block machine: what the NVRAM Manager is, as a state and a history of entries, in which everything about blocks is
//! claimed. It promises that its definitions allow the worked histories and refuse the wrong ones, row by row. Their laws, that
//! a program's history is legal, and which histories a script may have, are left to the crates above.
//!
//! Read in `specs/`, in this order: `State`, `Blocks`, `Order`, `Sweeps`, `Reply`, `Next`, `ResultTable`, `Results`, `StartUp`,
//! `Steps`, `Legal`, `History`, `Accepted`, `Prices`; the cases are in `Cases` and in the clauses of `src/*_cases.rt`.
#![tactic(auto)]

mod near_cases;
mod reply_cases;
mod table_cases;
mod worked_cases;
mod wrong_cases;

pub use block_config;
pub use near_cases::{
    misplaced_posts_are_refuted, near_histories_are_legal, other_blocks_stay, other_instances_stay,
    wrong_picks_are_refuted, wrong_times_are_refuted, wrong_writes_are_refuted,
};
pub use nv_base;
pub use reply_cases::{
    each_block_has_its_replies, each_state_has_its_replies, each_time_has_its_replies,
};
pub use table_cases::{
    entries_are_reserved, jobs_in_order, ram_by_the_table, requests_are_refused_by_the_table,
    results_by_the_table, sweeps_by_their_members,
};
pub use worked_cases::{
    cases_of_order_are_legal, cases_of_ram_are_legal, cases_with_faults_are_legal,
    corner_cases_are_legal, failures_have_their_price, marks_at_a_cut, marks_that_are_asked_for,
    simple_cases_are_legal,
};
pub use wrong_cases::{
    wrong_copies_are_refuted, wrong_jobs_are_refuted, wrong_posts_are_refuted,
    wrong_replies_are_refuted, wrong_start_ups_are_refuted, wrong_sweeps_are_refuted,
};
