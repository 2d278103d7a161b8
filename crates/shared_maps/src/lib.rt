//! Maps whose copies share structure: a copy costs a few pointers, whatever the map holds, and a change copies the path to it alone.
//!
//! - Each map is a tree of `shared_trees`; `digests` says what it keeps things under.
//! - `ordered_ids`: the ids of a map in their order.
//! - `specs/Maps` says what a map holds, as a function.
#![tactic(auto)]

mod digests;
mod id_map;
mod number_map;
mod number_tree;
mod ordered_ids;
mod task_map;
mod time_map;

pub use id_map::IdMap;
pub use number_map::NumberMap;
pub use number_tree::NumberTree;
pub use ordered_ids::OrderedIds;
pub use task_map::TaskMap;
pub use time_map::TimeMap;
