//! Threads that wait for tasks. A caller has several tasks done at once and waits for all of them, and where all went well
//! each was done in its round.
//!
//! - `task`: what a task is.
//! - `receipt`: that a task was done, which a thread hands to another.
//! - `pool`: the threads, and what they share.
#![tactic(auto)]

mod pool;
mod receipt;
mod task;

pub use pool::Pool;
pub use task::Task;
