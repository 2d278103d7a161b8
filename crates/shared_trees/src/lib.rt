//! A search tree whose copies share structure: a copy costs a pointer, whatever the tree holds, and a change copies the path to it alone.
//!
//! - `keys`: what a tree keeps things under, and the order of that.
//! - `tree`: the balanced tree; `writing` puts into it and takes out of it, `turns` keeps it balanced.
//! - `sorted`: a tree whose entries are in order, which maps are made of.
#![tactic(auto)]

mod keys;
mod sorted;
mod tree;
mod turns;
mod writing;

pub use keys::{Key, Sought};
pub use sorted::Sorted;
