//! What a call over many partitions has done for its requests, once it is at rest.
//!
//! - `specs/Rested`: how it came to rest. `specs/Served`: that nothing is left to do for any request and each has its answer, or which of
//!   them is the first that waits for one; and the world that all partitions show after what was settled.
//! - `laws`: the world that they show is that of a legal run; and once they are at rest all requests are served, or the first that waits
//!   is the first whose answer wasn't said.
#![tactic(auto)]

mod laws;
