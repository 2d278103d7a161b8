//! JSON as a tree that takes little memory: 24 bytes a value, 40 a member and the bytes of its texts, all in an arena. What a
//! text says is the kit's `read` of `serde_json`, and `View` says what a tree stands for.
//!
//! - `tree` is the tree, `reading` reads one from bytes, and `number` is the number that a text writes.
#![tactic(auto)]

mod number;
mod reading;
mod tree;

pub use reading::{ReadError, read_tree};
pub use tree::{Member, Tree};
