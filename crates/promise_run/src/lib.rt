//! The promise of a whole run of the program: one record, `Promise`, whose fields are one sentence.
//!
//! It proves that the promise follows from its two halves, what the stack keeps over any device and what the device
//! keeps over its flash, and what it comes to in the life of a unit; worked runs show what keeps it and what breaks it.
//! That the stack, its device and the commands keep their parts is left to their crates.
#![tactic(auto)]

mod both_cases;
mod cap;
mod cases;
mod kept_cases;
mod life;
mod operation_cases;
mod refused_cases;
mod turn_cases;
mod urgent_cases;

pub use both_cases::{
    cuts_of_both_come, faults_of_both_are_counted, operations_are_of_the_job_in_hand,
    turns_of_both_are_kept, turns_of_slots, urgent_writes_are_posted_soon_by_the_first,
};
pub use cap::CAP;
pub use cases::{
    a_list_that_ends_early_breaks_it, a_lost_write_breaks_it, canceled_requests_end,
    drains_leave_nothing_open, failures_are_counted_in_their_moves, full_histories_end,
    planned_cuts_come, runs_of_calls, runs_over_two_flashes, runs_that_are_served,
    runs_that_keep_it, turns_one_by_one, wrong_causes_break_it, wrong_marks_break_it,
    wrong_operations_break_it, wrong_orders_break_it,
};
pub use kept_cases::{kept_pages_are_for_urgent_writes, urgent_writes_go_on_at_the_seal};
pub use life::units_hold_marks;
pub use operation_cases::{
    first_sectors_are_erased_for_causes, operations_are_bounded, start_ups_leave_nothing,
    tries_are_those_configured,
};
pub use refused_cases::{copies_not_refused_as_asked, copies_refused_as_asked};
pub use turn_cases::{faults_renew_turns, turns_of_jobs};
pub use urgent_cases::urgent_writes_are_posted_soon;
