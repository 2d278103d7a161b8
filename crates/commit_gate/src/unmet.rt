//! Why a frame is not committed.

use dura_value::Identity;

/// Why a frame is not committed: by the first of its items that names an entry which is not there, or not what the item takes it for.
#[derive(Clone, Copy)]
pub enum Unmet {
    /// A later incarnation of its partition gave this entry up.
    Lost {
        /// The entry.
        dep: Identity,
        /// From which position on it gave entries up.
        floor: u64,
    },
    /// This entry isn't settled yet.
    NotReady {
        /// The entry.
        dep: Identity,
        /// How many entries of its partition are settled: none of a partition that isn't there.
        have: u64,
    },
    /// This entry is not what the frame takes it for: it didn't send this message under this number, or it hasn't read so far.
    Differs {
        /// The entry.
        dep: Identity,
    },
}
