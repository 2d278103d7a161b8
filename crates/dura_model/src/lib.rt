//! The failure-free machine, as definitions, and laws of them.
//!
//! - `specs/World`, `Deliveries` and `Steps`: everything that there is at a stamp, what a message makes of its receiver, and
//!   what one label makes of the world.
//! - `specs/Legal`: legal runs, quiet worlds, tasks that end, sections that overlap.
//! - `specs/Partition`: the state of one partition, what an item makes of it, and the world that all states show.
//! - `specs/Placed`: what the states need so that they show a world, and when an item is its label.
//! - `specs/Entries`: what entries make of a state, and the labels that they are.
//! - `specs/Sends`: what entries make of what other partitions see of a state: the streams to them and from them.
//! - `laws` are laws of these.
#![tactic(auto)]

mod laws;
