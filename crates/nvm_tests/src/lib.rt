//! Tests of several crates, a module for each: what no contract fixes, generic functions and impls once at a concrete
//! type, a failing read and write in mid-stream, a gate and a mirror in several threads, and a few worked texts from the
//! documents.
//!
//! A crate with a test of its own is proved twice, so tests stand here, but for those that need private parts. What the
//! commands show is a case of `nvm_rows`, which costs no proof. It promises nothing.
#![tactic(auto)]

#[cfg(test)]
mod callers;
#[cfg(test)]
mod devices;
#[cfg(test)]
mod driver;
#[cfg(test)]
mod failing;
#[cfg(test)]
mod faults;
#[cfg(test)]
mod figures;
#[cfg(test)]
mod flagged_device;
#[cfg(test)]
mod flags;
#[cfg(test)]
mod found;
#[cfg(test)]
mod lock;
#[cfg(test)]
mod mirrors;
#[cfg(test)]
mod programs;
#[cfg(test)]
mod queues;
#[cfg(test)]
mod ram;
#[cfg(test)]
mod shared;
#[cfg(test)]
mod sides;
#[cfg(test)]
mod streams;
#[cfg(test)]
mod texts;
#[cfg(test)]
mod untold;
