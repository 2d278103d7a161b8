//! The table of the world that the states of all partitions show, as it is said on a site's tape.
//!
//! - `table`: the table is said (`say_table`): a line for each entity that was delivered to, then one for each instance of an
//!   orchestration.
//! - `kind`: what a line is for. `lines`: the lines of a kind, in the order of their ids, by a merge of the states. `heads`: how
//!   far each state was listed. `row`: one line.
//! - `error`: why a table was not said to its end.
//! - `laws`: what the definitions say, and `examples` of them.
//! - `specs/Table` says what the table is, `specs/Fronts` what of it a call that failed has said, and `specs/Steps` the same of the
//!   lines of one kind. `specs/Kinds` and `specs/Heads` say what the merge goes by.
#![tactic(auto)]

mod error;
mod examples;
mod heads;
mod kind;
mod laws;
mod lines;
mod row;
mod table;

pub use error::ShowError;
pub use examples::{
    empty_tables, tables_of_later, tables_of_two, tables_with_both, tables_with_none,
    tables_with_one_entity,
};
pub use laws::{
    fronts_begin_tables, one_state_is_all, states_have_one_table, tables_are_whole, worlds_are_kept,
};
pub use table::say_table;
