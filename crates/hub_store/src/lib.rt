//! The store: what owns the files and the tape while a call commits and says.
//!
//! It owns the site, what was settled, how far the frame of each partition has come, which requests' answers were said, and
//! whether a device call failed. Each method makes one device call, and `reopen`, which goes on after one that failed, two. `sync_all`
//! makes the files of several partitions safe by one. What is refused is refused for a full log, the disk, the tape or want of memory:
//! the store knows no clock.
//!
//! A frame that is under way is given up by `drop_frame` as long as its gate was never tried, which reads nothing and can't settle it.
//! From then on the gate decides: `reopen` reads it.
#![tactic(auto)]

mod begin;
mod body;
mod dropping;
mod end;
mod examples;
mod field_examples;
mod gate;
mod laws;
mod looks;
mod raise;
mod refusal;
mod reopen;
mod say;
mod settle;
mod start;
mod store;
mod sync;
mod together;
mod trail;
mod way;

pub use end::Ended;
pub use refusal::{BodyRefusal, Refusal, SayError, SyncRefusal, Unwritten};
pub use reopen::Reopening;
pub use start::Start;
pub use store::Store;
pub use trail::{Said, Settled, Trail};
pub use way::Stage;
