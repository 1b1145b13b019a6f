//! Scripts and histories: which histories a script may have, step by step in `play`, and beside each other in `run`.
//!
//! It promises that the worked cases are walks of their scripts and that wrong ones aren't, that a walk grows by a
//! step's piece, and that a legal history follows from its text. Who makes the steps, and what a history means, is left
//! to `script_player` and `block_machine`.
#![tactic(auto)]

mod cases;
mod run_cases;
mod wrong_cases;

pub use cases::{
    cases_of_order_are_walks, cases_of_ram_are_walks, cases_with_faults_are_walks,
    simple_cases_are_walks,
};
pub use run_cases::{
    copies_are_shown, copies_take_the_last_store, full_histories_end_callers_one_by_one,
    runs_keep_the_callers_order, stores_come_before_they_are_taken, waits_stay_over,
    walks_take_stores, wrong_walks_are_refuted,
};
pub use wrong_cases::{
    near_walks_are_walks, other_pieces_are_refuted, unfinished_runs_are_refuted,
};
