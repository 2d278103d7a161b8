//! Why nothing was recovered.

use thiserror::Error;

/// Why nothing was recovered.
#[derive(Clone, Copy, Debug, Drop, PartialEq, Eq, Error)]
pub enum RecoverError {
    /// A log file isn't one of its partition's that can stand here.
    #[error("file {file} is damaged at offset {offset}")]
    Damaged {
        /// The number of the file.
        file: u32,
        /// The first byte that is wrong or missing.
        offset: u64,
    },
    /// A log is of another number of partitions.
    #[error("the log is of {found} partitions, and {asked} are asked for")]
    OtherShape {
        /// How many partitions the log is of.
        found: u32,
        /// How many are asked for.
        asked: u32,
    },
    /// A log is of another flows file.
    #[error("the log is of flows with digest {found}, and these have {given}")]
    OtherFlows {
        /// The digest in the log.
        found: u64,
        /// The digest of the flows file.
        given: u64,
    },
    /// An item of an entry isn't one that the state before it accepts.
    #[error("partition {partition} has an illegal entry at position {position}")]
    Illegal {
        /// The number of the partition.
        partition: u32,
        /// The position of the entry.
        position: u64,
    },
    /// An entry takes in what another partition's log hasn't sent, or lets go of what it hasn't read.
    #[error("partition {partition} needs at position {position} what partition {src} lacks: number {seq} of their stream")]
    Unclosed {
        /// The number of the partition.
        partition: u32,
        /// The position of the entry.
        position: u64,
        /// The other partition.
        src: u32,
        /// The number in the stream between them.
        seq: u64,
    },
    /// The disk failed.
    #[error("the disk failed")]
    SiteFault,
    /// Memory ran out.
    #[error("out of memory")]
    Memory,
}
