//! The plan of a run: which partitions move to which nodes, and which nodes stop.
//!
//! - `json` looks into JSON, and `entries` reads a move or a stop.
//! - `plans` reads a file.
//! - `error` is why there is no plan.
//! - `rows` are worked rows.
#![tactic(auto)]

mod entries;
mod error;
mod json;
mod plans;
mod rows;

pub use entries::{Move, Stop};
pub use error::{Place, PlanError};
pub use plans::{Plan, read_plan};
