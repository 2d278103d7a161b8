//! Why no life begins.

use dura_value::Name;
use recover_core::RecoverError;
use thiserror::Error;

/// Why no life begins.
#[derive(Debug, Drop, Error)]
pub enum OpenError {
    /// Nothing was recovered, a new log couldn't be made, or memory ran out.
    #[error("{0}")]
    Refused(RecoverError),
    /// A partition's incarnations are used up.
    #[error("partition {partition} has no incarnation left: the next would be {number}")]
    Spent {
        /// The number of the partition.
        partition: u32,
        /// The incarnation that would begin.
        number: u64,
    },
    /// Another request was taken under this client's name and number than is asked for.
    #[error("another request with number {number} was taken")]
    Clash {
        /// The client.
        client: Name,
        /// The number.
        number: u32,
    },
}
