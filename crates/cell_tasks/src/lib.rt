//! Which of the tasks that are pending at a cell were given out, so that each is given out once, and that the next isn't looked for from
//! the first on each time.
//!
//! - `given_out`: the tasks that were given out (`GivenOut`), and the first pending one that wasn't.
//! - `specs/Tasks`: what these are, as functions of ids and numbers.
#![tactic(auto)]

mod given_out;

pub use given_out::GivenOut;
