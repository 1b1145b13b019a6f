//! Laws of the looks at synchronized RAM: which stores can have been made when a look showed one, from what the callers of the
//! stores handed along.
//!
//! It promises each law as a lemma of `proofs/`, whose statement stands in `specs/`. That a store hands along what its caller
//! knew, and that the taker holds it beside the list in the lock, is left to `ram_mirrors` and `turn_gate`.
#![tactic(auto)]
