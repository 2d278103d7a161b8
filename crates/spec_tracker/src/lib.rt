//! What is known of which entries are settled and which are lost, and what follows for an entry that another depends on.
//!
//! - `marks`: what is known (`Marks`), and the verdict on an entry; `examples` has a verdict of each kind.
#![tactic(auto)]

mod examples;
mod marks;

pub use marks::{Dep, Marks, Read, Verdict};
