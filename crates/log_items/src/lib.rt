//! What a partition's log keeps, as types and as plain data: items, entries and frames. Their bytes are `part_items`'.
//!
//! - `items`: a step that a log keeps, and a message on its way to another partition; `frames`: entries, and what is written at once.
//! - `specs/Plain` is the plain data that these stand for, and `specs/Streams` what is left of the streams to other partitions.
//! - `specs/Readings`: how far the streams from others are taken in, and by whom; `specs/Entries`: who entries are, and what is in them.
#![tactic(auto)]

mod frames;
mod items;

pub use frames::{Entry, Frame, Items};
pub use items::{Item, Packet};
