//! The engine. `run` reads what it is asked for, recovers what the logs keep, goes on from there, and says each answer once what it answers
//! is committed; or it shows what is there.
//!
//! - `call` is the call that a program makes; `recorded` is that call over recorded calls of the system, which is what the program makes.
//!   Each run goes by `cluster_run`, over one partition as over many. `specs/Promises` has what each promises.
//! - `showing` recovers what the logs keep, and shows it.
//! - `laws` says that a program which starts on what a crash left begins on it, which is what joins runs one after another (`join_laws`).
#![tactic(auto)]

mod call;
mod laws;
mod recorded;
mod showing;

pub use call::{run, run_alone};
pub use cluster_run::Ended;
pub use recorded::run_recorded;
