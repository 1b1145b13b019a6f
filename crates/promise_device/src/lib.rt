//! The device's half of the promise of a run: what ties the words of a memory device to the bytes of its flash, which
//! images its maps of found marks stand for, whose operations and faults it counts, and when it is worn out.
//!
//! It has definitions with their cases, and no machinery: `Bridges` is that half, said of what any device makes of its
//! flash's bytes, `Reading`. It names no block, and that a device over a flash keeps it is left to that device's crate.
#![tactic(auto)]

mod cases;

pub use cases::{
    answers_of_another_flash, banks_that_may_be_closed, banks_that_take_over, counts_of_the_flash,
    erases_of_a_flash, erases_of_another_flash, erases_of_three_banks, generations_of_three_banks,
    operations_of_another_flash, operations_of_the_flash, programs_of_a_flash,
    programs_of_another_flash, room_of_a_bank, room_of_another_bank, sectors_in_order,
    sectors_out_of_order,
};
