//! Tests of logs and of the store over them, on sites in memory, as transcripts: texts with a line for each file, run or call, and what it
//! gives. A line that fails is told by its text. A text costs no proof.
//!
//! - `reader_tests` tries how `commit_log` reads files, `ahead_tests` those that are longer than what one read fetches, and `log_tests` how
//!   it writes them and what crashes leave, all by `readings`.
//! - `store_tests` tries `hub_store`, by `stores` and `left`.
//! - `texts` says what is found in the words of a transcript, and compares it.
#![tactic(auto)]

#[cfg(test)]
mod ahead_tests;
#[cfg(test)]
mod left;
#[cfg(test)]
mod log_tests;
#[cfg(test)]
mod reader_tests;
#[cfg(test)]
mod readings;
#[cfg(test)]
mod store_tests;
#[cfg(test)]
mod stores;
#[cfg(test)]
mod texts;
