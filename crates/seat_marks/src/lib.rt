//! What a partition's seat shows of the store: the entries that it has settled. Only clauses read it.
#![tactic(auto)]

mod mark;

pub use mark::SettledMark;
