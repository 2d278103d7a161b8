//! Items, entries and frames of a partition's log (`log_items`) as bytes and back; and laws of the written forms: what was written is read again,
//! whatever follows, no spelling goes on as another's, and nothing is read but what is spelled.
//!
//! - `writing` writes what is written, `reading` reads it, and `numbered` reads a log's next frame, entry by entry. `tags` are the
//!   first bytes of items.
//! - `fits` looks at whether an item is within the limits of the format.
//! - `specs/Grammar` and `specs/Spelling` are the format, `specs/Fits` and `specs/ItemFits` what is within its limits.
//! - `again` says that values, ids, messages and their parts are read again, `apart` that their spellings stand apart, and
//!   `frames_again` says both of items and frames; `only` says that nothing else is read, `may_write` that what is within the
//!   limits may be written, and `next_frames` says of a log's next frame what its numbers add.
//! - `specs/Kept` is what one log file keeps, and `specs/Logs` which log a partition has in its two files, and why they are refused;
//!   `kept` are laws of these, and `kept_examples` what they say of single files (`specs/Examples`).
#![tactic(auto)]

mod again;
mod apart;
mod fits;
mod frames_again;
mod kept;
mod kept_examples;
mod may_write;
mod next_frames;
mod numbered;
mod only;
mod reading;
mod tags;
mod writing;

pub use fits::item_fits;
pub use numbered::{FrameReader, Next};
pub use reading::read_frame;
pub use writing::write_frame;
