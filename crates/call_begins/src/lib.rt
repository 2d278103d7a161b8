//! What a call over many partitions begins with, as it was recovered: what others see of each partition, and a cell for each.
//!
//! - `calls` begins a whole call: a store over the logs, and the cells beside it ([`begin_call`]).
//! - `beginning` makes what others see of each partition and a cell for each, and says which node has it. `ending` lets go of cells.
//! - `named` is what is picked by who begins a call: where it begins, and by which rules. `placed` is an order in which the recovered
//!   entries were accepted, which only clauses read.
//! - `specs/Begins`: the rules of a call from what was recovered on (`call_rules`), what it may begin with, and what a store and cells are
//!   then.
#![tactic(auto)]

mod beginning;
mod calls;
mod ending;
mod named;
mod placed;

pub use beginning::{cell_of, cells_of, ledgers_of, owner_of, push_cell};
pub use calls::{Call, begin_call};
pub use ending::{end_cell, end_cells};
pub use named::{Named, Of, Since};
pub use placed::{PlacedMark, Told, placed_by};
