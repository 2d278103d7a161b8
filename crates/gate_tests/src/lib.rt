//! Tests of what a gate lets pass, as transcripts: texts with a line for each frame, and what it comes to. A line that fails is told by
//! its text. A text costs no proof.
//!
//! - `ledgers` is what is settled of two partitions, `frames` reads a frame in a line, and `gate_tests` holds one against the other.
//! - `states` is the state of a partition, and `recovered_tests` holds frames against what others see of it once it was recovered.
#![tactic(auto)]

#[cfg(test)]
mod frames;
#[cfg(test)]
mod gate_tests;
#[cfg(test)]
mod ledgers;
#[cfg(test)]
mod recovered_tests;
#[cfg(test)]
mod states;
