//! A run over many partitions and nodes: what its files ask for is read, clients are served until nothing is possible any more, and why that
//! ended is told as a cause.
//!
//! - `ended` is what a call gives back, and `causes` are the causes by what the layers below answer (`specs/Causes`).
//! - `cluster` is the run ([`run_cluster`]); `specs/Comes` is what it comes to, and `specs/Complete` how it may end where nothing is wrong with
//!   its files and the outside doesn't fail.
#![tactic(auto)]

mod causes;
mod cluster;
mod ended;

pub use causes::{cause_of_recovery, rest_cause};
pub use cluster::run_cluster;
pub use ended::{Ended, end_with};
