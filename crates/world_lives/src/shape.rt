//! How a life goes on.

use cell_steps::Mode;

/// How a life goes on.
#[derive(Clone, Copy)]
pub struct Shape {
    /// The digest of the flows file.
    pub digest: u64,
    /// How many partitions there are.
    pub count: u32,
    /// How many nodes there are.
    pub nodes: u32,
    /// How far partitions run ahead of their logs.
    pub mode: Mode,
    /// The length below which logs stay.
    pub segment: u64,
}
