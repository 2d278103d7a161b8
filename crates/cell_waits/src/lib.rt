//! What waits at a cell, a partition that runs ahead of its log: requests, packets of streams from other partitions, trims and
//! outcomes of activities, in one queue, in the order in which they came.
//!
//! - `wait`: one of these, and what it is looked for by. `waits`: the queue, with what is looked for in it.
//! - `indices`: how many wait and where, of `counts` by partitions and `places` by ids and numbers; `line`: places one behind another.
//! - `cutting`: which packets are let go of where an entry that sent one is lost.
//! - `specs/Waits` is the plain data that these stand for, and `specs/Indices` when the indices agree with the queue.
#![tactic(auto)]

mod counts;
mod cutting;
mod indices;
mod line;
mod places;
mod wait;
mod waits;

pub use wait::{Ended, Wait};
pub use waits::Waits;
