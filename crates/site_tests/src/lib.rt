//! Tests of the sites, in memory, over calls that fail as planned and over a real directory, of the machine's clock, and of
//! a pool of threads.
//!
//! - `transcript`: calls of a site with what they give, as text, and the one function that makes those of all tests.
//! - `scripted`: calls on a file in memory, for the tests of the site over calls.
#![tactic(auto)]

#[cfg(test)]
mod called_tests;
#[cfg(test)]
mod clock_tests;
#[cfg(test)]
mod file_tests;
#[cfg(test)]
mod memory_tests;
#[cfg(test)]
mod pool_tests;
#[cfg(test)]
mod scripted;
#[cfg(test)]
mod transcript;
