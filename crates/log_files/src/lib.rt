//! The log files of partitions: what stands in them, which of its two files has a partition's log, and the entries of a log, one after
//! another.
//!
//! - `opening` syncs the files and reads their fronts ([`open_files`]), and `choosing` finds a partition's log by these ([`choose`]).
//!   `asked` says what they are read for ([`Asked`]).
//! - `reader` reads a log entry by entry ([`EntryReader`]): memory is one piece of the file, one payload and one entry.
//! - `checking` reads all files to their ends and names the first that is refused ([`check_files`]). `error` says why.
//! - `specs/Entries` says what was read of a log and what is left, `specs/Fronts` what opening leaves, `specs/Fitting` which log a partition
//!   has by the fronts of its files, and `specs/Checked` what the files keep that were read to their ends.
#![tactic(auto)]

mod asked;
mod checking;
mod choosing;
mod error;
mod opening;
mod reader;

pub use asked::Asked;
pub use checking::check_files;
pub use choosing::choose;
pub use error::FilesError;
pub use opening::{LogFile, LogFiles, first_file, open_files, second_file};
pub use reader::{Ahead, EntryReader};
