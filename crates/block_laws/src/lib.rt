//! Laws of the block machine: what legal histories, and the states that they lead to, have in common.
//!
//! It promises each law as a lemma of `proofs/`, whose statement stands in `specs/`: how histories grow, what a reply says,
//! which job is next, that entries fit, and which marks may stand. The definitions and their worked cases are left to
//! `block_machine`.
#![tactic(auto)]
