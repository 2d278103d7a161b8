//! A cell: one partition that runs ahead of what its log has settled.
//!
//! - `cell`: the cell, its type and its turn; `coming`: what comes to it; `trimming`: what was read is let go of; `seats`: how it begins, its seat, and moments.
//! - `moving`: its settled state moves on, and entries are given up; `picking`: a frame of entries.
//! - `tasks`: the tasks that are given out.
//! - `sending`: what goes out to other partitions once more.
//! - `mine`: what its seat shows. `specs/Views` says what its clauses see of it.
#![tactic(auto)]

mod cell;
mod coming;
mod mine;
mod moving;
mod picking;
mod seats;
mod sending;
mod tasks;
mod trimming;

pub use cell::{Cell, CellTurn};
pub use cell_steps::{Mode, Round};
pub use coming::{Arrived, Offered, Recorded};
pub use mine::Mine;
pub use moving::{CellReset, CellRewind};
pub use tasks::Task;
