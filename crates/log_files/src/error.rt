//! Why log files are refused.

use thiserror::Error;

/// Why log files are refused, or weren't read.
#[derive(Clone, Copy, Debug, Drop, PartialEq, Eq, Error)]
pub enum FilesError {
    /// A log file isn't one of its partition's that can stand here.
    #[error("file {file} is damaged at offset {offset}")]
    Damaged {
        /// The number of the file.
        file: u32,
        /// The first byte that is wrong or missing.
        offset: u64,
    },
    /// A log is of another number of partitions.
    #[error("the log is of {found} partitions, and {asked} are asked for")]
    OtherShape {
        /// How many partitions the log is of.
        found: u32,
        /// How many are asked for.
        asked: u32,
    },
    /// A log is of another flows file.
    #[error("the log is of flows with digest {found}, and these have {given}")]
    OtherFlows {
        /// The digest in the log.
        found: u64,
        /// The digest of the flows file.
        given: u64,
    },
    /// The disk failed.
    #[error("the disk failed")]
    SiteFault,
    /// Memory ran out.
    #[error("out of memory")]
    Memory,
}
