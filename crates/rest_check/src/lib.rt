//! Whether a call over many partitions has anything left to do, by a look at all that is settled.
//!
//! - `resting`: whether all partitions are at rest, and what comes next of each client was taken and isn't answered ([`is_at_rest`]).
//! - `specs/Rest`: where nothing is possible any more (`IsAtRest`).
#![tactic(auto)]

mod resting;

pub use resting::is_at_rest;
