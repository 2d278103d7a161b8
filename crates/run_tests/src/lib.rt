//! Tests on sites in memory.
//!
//! `run_tests`, `fault_tests` and `crash_tests` are of whole runs of `programs`: without faults; where each call of the outside fails
//! in turn; and cut off at each moment. `recovery_tests` are of what recovery answers, `frame_tests` of frames as bytes, and
//! `call_tests` make each public call once that the program does without.
#![tactic(auto)]

#[cfg(test)]
mod call_tests;
#[cfg(test)]
mod crash_tests;
#[cfg(test)]
mod fault_tests;
#[cfg(test)]
mod frame_tests;
#[cfg(test)]
mod programs;
#[cfg(test)]
mod recovery_tests;
#[cfg(test)]
mod run_tests;
