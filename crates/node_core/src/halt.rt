//! Why a call goes on no more.

/// Why a call goes on no more.
#[derive(Clone, Copy, Drop, PartialEq, Eq)]
pub enum Halt {
    /// The log of this partition would come to this length, which isn't below the segment's.
    Full {
        /// The partition.
        partition: u32,
        /// The length.
        length: u64,
    },
    /// The number that comes next in this partition is past those that there are.
    Spent {
        /// The partition.
        partition: u32,
        /// The number.
        number: u64,
    },
    /// The disk failed.
    SiteFault,
    /// The tape failed.
    SayFault,
    /// The clock failed.
    ClockFault,
    /// Memory ran out.
    Memory,
}
