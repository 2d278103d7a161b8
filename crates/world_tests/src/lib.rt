//! Tests of lives of the world, as transcripts: texts with a line for each event, and what it comes to. A line that fails is told by its
//! text.
//!
//! - `script` reads the events of a text and tells what they came to, and `lives` lives through them.
//! - `row_tests` has a crash before a gate and in it, a node that is stopped around it, and a word that is drawn twice; `pass_tests` an
//!   entry that only as many passes of judging as there are partitions give up.
//! - `chance` gives numbers and `driver` lists events by chance, and `driver_tests` lives through them, crashes, and goes on.
#![tactic(auto)]

#[cfg(test)]
mod chance;
#[cfg(test)]
mod driver;
#[cfg(test)]
mod driver_tests;
#[cfg(test)]
mod lives;
#[cfg(test)]
mod pass_tests;
#[cfg(test)]
mod row_tests;
#[cfg(test)]
mod script;
