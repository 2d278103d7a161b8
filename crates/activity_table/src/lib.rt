//! The activities that an engine can run, and those that are shipped. `specs/Table` says what each may give.
#![tactic(auto)]

mod adding;
mod chance;
mod table;

pub use chance::word;
pub use table::{Activities, Table, outcome_of};
