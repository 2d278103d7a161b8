//! What log files are read for.

ghost use Rattle.std.specs.Prelude.{◌<◌};

/// What log files are read for: the log of one of so many partitions, under the digest of the flows file.
#[derive(Clone, Copy)]
pub struct Asked {
    /// The partition.
    pub partition: u32,
    /// How many partitions there are.
    pub count: u32,
    /// The digest of the flows file.
    pub digest: u64,
    ghost below: { partition < 32 },
}
