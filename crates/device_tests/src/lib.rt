//! Tests of memory devices: work over any device, on one in memory, on one over paired slots and on one of a flash and an EEPROM; the
//! bytes of paired slots; and what a start-up finds behind a power cut and a failure at each operation of a write.
//!
//! It promises nothing. What a test shows here no clause says by name: bytes written by hand, and answers of generic calls at
//! concrete types. Tests of what stands above the devices are left to `nvm_tests`.
#![tactic(auto)]

#[cfg(test)]
mod both;
#[cfg(test)]
mod floor;
#[cfg(test)]
mod harms;
#[cfg(test)]
mod images;
#[cfg(test)]
mod pair_harms;
#[cfg(test)]
mod pair_reads;
#[cfg(test)]
mod pairs;
#[cfg(test)]
mod slots;
#[cfg(test)]
mod steps;
#[cfg(test)]
mod trial;
