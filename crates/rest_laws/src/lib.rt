//! When the world that all partitions show is quiet.
//!
//! - `specs/Rest`: when the states of all partitions are at rest. `specs/Requests`: how far a world has come with the requests of clients
//!   that ask one after another.
//! - `laws`: partitions at rest show a quiet world, and a quiet world leaves nothing to do in any partition; and where the requests are
//!   taken up, none of them is due.
//! - `resting`: whether states are at rest (`are_at_rest`).
#![tactic(auto)]

mod laws;
mod resting;

pub use resting::are_at_rest;
