//! The flows file. `specs/Files` says which flows the bytes give, or why they are refused and where.
//!
//! - `reading` reads the bytes of a file, `file` its shape, and `lookups` looks up its names.
//! - `classes` reads classes and bodies by names, `bodies` statements with some in them, and `simple` the others.
//! - `words` are the words of statements.
#![tactic(auto)]

mod bodies;
mod classes;
mod file;
mod lookups;
mod reading;
mod simple;
mod words;

pub use flow_values::{Path, Step};
pub use reading::{FlowsError, read_flows};
