//! What a program sees of the outside, and what it may rely on.
//!
//! A [`Site`] holds numbered files and one output tape under one clock of moments. Its whole meaning is one
//! ghost member, `history`: the list of what has happened so far. What a file reads, which files a crash may
//! leave at a moment, and what stands on the tape are definitions over it (`specs/History.antt`). Whether the
//! answers agree with it is `tells`: it holds of each site in memory, and of a real directory as long as the disk
//! answered so.
//!
//! A [`Clock`] gives stamps in milliseconds. Those that it gave are a ghost list, which a clock holds as [`Readings`]
//! (`specs/Readings.antt`).
#![tactic(auto)]

mod clock;
mod front;
mod laws;
mod readings;
mod site;

pub use clock::{Clock, LAST_STAMP};
pub use front::{FrontError, read_front};
pub use laws::{syncs_leave_no_new_image, what_a_read_gives_is_an_image};
pub use readings::Readings;
pub use site::{Failed, Site};
