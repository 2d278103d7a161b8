//! The machine that runs one instance of a flow, and its single steps.
//!
//! - `machine`: what a machine is. It lends the statements of its flow, and copies none.
//! - `ends`, `faults`: how it leaves a section, faults and ends.
//! - `statements`, `calls`, `timers`, `locks`, `awaits`, `several`: the step of each statement.
//! - `steps`: the step of what is to run, by what it is.
//! - `specs/Views`: the plain data that these stand for.
#![tactic(auto)]

mod awaits;
mod calls;
mod ends;
mod faults;
mod locks;
mod machine;
mod several;
mod statements;
mod steps;
mod timers;

pub use machine::{Machine, Progress, Todo, put};
pub use several::AwaitError;
