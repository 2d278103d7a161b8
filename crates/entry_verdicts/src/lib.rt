//! What is known of the entries that an entry's items name, and copies of entries.
//!
//! - `verdicts`: whether all that items name is settled, and what of it is lost.
//! - `copies`: a copy of an entry.
#![tactic(auto)]

mod copies;
mod verdicts;

pub use copies::copy_entry;
pub use verdicts::{are_ready, lost_of};
