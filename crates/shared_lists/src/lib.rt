//! Lists and a cell whose copies share what they hold: a copy costs a pointer, whatever is in it.
//!
//! - `list`: a list that grows at its end, a chunk of items behind the chunk before it. `shared`: one thing.
//! - `sequence`: a list that is read at any place, grows at its end and loses items anywhere; `turns` keeps it balanced.
//! - `specs/Lists` and `specs/Sequences` say what each holds.
#![tactic(auto)]

mod list;
mod sequence;
#[cfg(test)]
mod sequence_tests;
mod shared;
mod turns;

pub use list::SharedList;
pub use sequence::SharedSequence;
pub use shared::Shared;
