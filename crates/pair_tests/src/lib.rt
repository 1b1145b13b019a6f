//! Tests of a stack over one device of two: over a flash and an EEPROM, and over two devices in memory.
//!
//! It promises nothing. The stack is the one that stands over any device, with no change: each block is kept on its own device, over a
//! WriteAll, a start-up and a power cut of either. Tests of the device itself are left to `device_tests`.
#![tactic(auto)]

#[cfg(test)]
mod both;
