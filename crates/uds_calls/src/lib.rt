//! What the negative answers of a call of `uds` tell.
//!
//! It promises, of each call of `uds` whose run `command` tells, that where nothing fails a request is answered 22 only by a refusal
//! or by a mark that gives nothing, and 72 only where the flash was worn out. That there is such a run is left to `nvm_top`.
#![tactic(auto)]

mod laws;

pub use laws::answers_of_calls_have_causes;
