//! A life of the world, beside its store.

use cell_frames::Seat;
use cell_steps::Mode;
use log_items::Packet;
use many_rules::Picked;
use spec_cell::Cell;
use spec_tracker::Marks;

/// A life of the world, from one opening of the files to the next crash: a cell for each partition, in their order, and what there was.
/// The store stands beside it.
pub struct Life<M: Picked> {
    /// The cells.
    pub cells: Vec<Cell<Seat<M>>>,
    /// Every packet that was sent, the first first.
    pub packets: Vec<Packet>,
    /// What was known of the partitions' logs, each time that it changed. The last is what is known now.
    pub marks: Vec<Marks>,
    /// How far partitions run ahead of their logs.
    pub mode: Mode,
    /// How many nodes there are.
    pub nodes: u32,
    /// Whether it is over: memory ran out, or the outside failed.
    pub ended: bool,
}
