//! Laws of runs over partitions and nodes, one after another. They are said of the definitions alone: the functions do nothing.
//!
//! - `laws`: what a run comes to is one life of those that `join_laws` joins, at each of its moments. So any number of runs under the same flows,
//!   each begun on what a crash left of the one before, make one.
#![tactic(auto)]

mod laws;
