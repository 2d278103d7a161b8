//! All cells of the world are judged, until nothing that one of them holds depends on an entry that was given up.
//!
//! - `judging` judges them in turn, again and again ([`judge_all`]). `specs/Judging`: what came of that.
//! - `laws`: nothing that a cell holds then depends on an entry that was given up, through any number of entries between.
#![tactic(auto)]

mod judging;
mod laws;

pub use judging::judge_all;
