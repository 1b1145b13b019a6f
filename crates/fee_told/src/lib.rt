//! What a memory device over the banks of a flash tells, computed from its memory and the bytes of its flash: the marks
//! of its numbers, its clock by the operations of the flash, and its figures.
//!
//! Its laws say that what is told of the numbers is all that a start-up may find, now and in whatever a cut leaves,
//! that each step but a commit keeps what is settled and adds no doubt, and that what is open ends within the figures.
//! They are lemmas, and no function stands here; the laws of the clock are those of any device over a flash (`fls_told`),
//! and the program of the device is left to the crates above.
#![tactic(auto)]
