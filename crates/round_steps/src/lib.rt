//! The parts of a round of a call that serves clients over many partitions.
//!
//! - `course`: what a call has beside its store and its cells. `clients`: what clients are told, and what they ask. `labels`: what was settled.
//!   `tasks`: activities run.
//! - `rounds`: partitions make entries, and frames are committed, wave after wave. `owning`: nodes take partitions over, as the plan has it or
//!   to give up what isn't settled. `tidying`: what is between one round and the next.
//! - `specs/Serving`: what holds of the call between its steps (`IsServing`), and what it leaves of its store (`GoesOn`). `specs/Labels`: how many
//!   labels were settled.
#![tactic(auto)]

mod clients;
mod course;
mod labels;
mod owning;
mod rounds;
mod tasks;
mod tidying;

pub use clients::{serve_all, serve_reached};
pub use course::{Course, Pace, Seen};
pub use owning::own_all;
pub use rounds::{round, step_and_commit};
pub use tasks::run_all_tasks;
pub use tidying::{follow, tidy};
