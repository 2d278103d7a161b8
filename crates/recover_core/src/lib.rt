//! Recovery of many partitions: from any bytes in their log files to the states that they stand for, or a refusal that names the place.
//! Nothing is written, and the files are synced.
//!
//! - `recovery` opens all files and says what they stand for ([`recover`]). `error` says why nothing was recovered, and `ending` what is kept
//!   of a log that ended ([`Life`]).
//! - `beginning` finds each partition's log. `course` is how far a log has come into its partition's state, `trying` lets it go on, and
//!   `rounds` lets all go on until none can: memory is the states, and of each log one piece, one payload and one entry.
//! - `placing` lets an entry make the next state, and `ready` says whether the other partitions are as far as it needs. `reasons` says why an
//!   entry isn't placed, and `restoring` makes a state again that an entry spoiled which isn't accepted.
//! - `specs/Recovering` says what is recovered, by the definitions of `part_items` and `many_logs`; `specs/Courses` what was placed of one log,
//!   `specs/Rounds` what was placed of all. `laws` are laws of it.
#![tactic(auto)]

mod beginning;
mod course;
mod ending;
mod error;
mod laws;
mod placing;
mod ready;
mod reasons;
mod recovery;
mod restoring;
mod rounds;
mod trying;

pub use ending::Life;
pub use error::RecoverError;
pub use laws::what_stands_is_recovered;
pub use recovery::{Opened, recover};
