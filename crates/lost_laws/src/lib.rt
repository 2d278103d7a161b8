//! Laws of what incarnations gave up, over a store whose gate compares. The functions do nothing.
//!
//! - `specs/DependsOn`: what an entry depends on, through any number of entries between, and that none of it is lost.
//! - `laws`: nothing that is settled is lost or depends on what is, and nothing of a frame whose gate was tried.
//! - `examples`: what depends on what in a trail of three entries (`specs/Examples`).
#![tactic(auto)]

mod examples;
mod laws;

pub use laws::nothing_lost_is_committed;
