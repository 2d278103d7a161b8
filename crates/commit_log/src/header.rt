// What a segment is of.

/// The header of a segment.
#[derive(Clone, Copy, PartialEq, Eq)]
pub struct Header {
    /// The partition whose entries the segment holds.
    pub partition: u32,
    /// How many partitions there are.
    pub partitions: u32,
    /// The FNV-1a 64 of the flows file.
    pub digest: u64,
    /// The position of the first entry, below 2^63.
    pub base: u64,
}
