//! The state of a partition, and what an item makes of it. Instances are kept by their histories, and a delivery to one replays its.
//!
//! - `state`: the state of a partition (`PartState`): an item is applied, and what is possible now. `looks`: what the engine reads
//!   off it, and `listing`: how its instances and entities stand. `batch`: the items that are possible by themselves, one after
//!   another.
//! - `applying`: what each kind of item makes of all that a partition knows. `reaching`: a message reaches its receiver.
//!   `keeping`: an instance is kept as a delivery or an event made it.
//! - `specs/States` says what a state needs, `specs/Applied` what came of an item, `specs/Outputs` what it makes for the outside,
//!   and `specs/Enabled` what is possible.
#![tactic(auto)]

mod applying;
mod batch;
mod keeping;
mod listing;
mod looks;
mod reaching;
mod state;

pub use batch::{Batch, next_items};
pub use state::{PartState, Verdict};
