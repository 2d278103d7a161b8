// What a site in memory keeps of each call.

/// One entry of the record, the oldest first. A write is a `Wrote` and then one `Byte` for each byte that a read gives
/// since then. A line is one `Said` a byte.
#[derive(Clone, Copy, PartialEq, Eq)]
pub enum Kept {
    /// From this offset so many bytes are open to a crash.
    Wrote { file: u32, at: u64, size: u64 },
    /// One byte more of the newest write.
    Byte(u8),
    /// What a read gives was made safe.
    Synced { file: u32 },
    /// One byte on the tape.
    Said(u8),
}
