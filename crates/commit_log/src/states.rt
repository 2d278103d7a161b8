// The states of a log. Each names its file and where its gate stands. No value of them takes memory.
ghost use Rattle.std.specs.Prelude.{◌+◌, ◌<◌, ◌^◌};

use std::fmt;
use thiserror::Error;

/// At rest: behind the last frame stands a closed gate, all of it on the disk.
#[derive(Drop)]
pub struct Resting {
    /// The file's number.
    pub file: u32,
    /// Where the closed gate stands.
    pub gate: u64,
    ghost below: { gate + 1 < 2 ^ 31 },
}

/// A frame is written behind the closed gate, and a closed gate behind it.
#[derive(Drop)]
pub struct Bodied {
    /// The file's number.
    pub file: u32,
    /// Where the gate before the frame stands.
    pub gate: u64,
    /// Where the gate behind the frame stands.
    pub next: u64,
    ghost before: { gate < next },
    ghost below: { next + 1 < 2 ^ 31 },
}

/// The frame is on the disk behind the closed gate.
#[derive(Drop)]
pub struct Synced {
    /// The file's number.
    pub file: u32,
    /// Where the gate before the frame stands.
    pub gate: u64,
    /// Where the gate behind the frame stands.
    pub next: u64,
    ghost before: { gate < next },
    ghost below: { next + 1 < 2 ^ 31 },
}

/// The gate is written open, and not yet safe.
#[derive(Drop)]
pub struct Gated {
    /// The file's number.
    pub file: u32,
    /// Where the gate before the frame stands.
    pub gate: u64,
    /// Where the gate behind the frame stands.
    pub next: u64,
    ghost before: { gate < next },
    ghost below: { next + 1 < 2 ^ 31 },
}

/// Writing the frame or making it safe failed. Its gate was never tried, so no crash leaves the frame, which is only dropped.
#[derive(Drop)]
pub struct BrokenBody {
    /// The file's number.
    pub file: u32,
    /// Where the gate before the frame stands.
    pub gate: u64,
    /// Where the gate behind the frame would stand.
    pub next: u64,
    ghost before: { gate < next },
    ghost below: { next + 1 < 2 ^ 31 },
}

/// Opening the gate or making it safe failed, and the frame may be there or not. Such a log is only opened again.
#[derive(Drop)]
pub struct BrokenGate {
    /// The file's number.
    pub file: u32,
    /// Where the gate before the frame stands.
    pub gate: u64,
    /// Where the gate behind the frame would stand.
    pub next: u64,
    ghost before: { gate < next },
    ghost below: { next + 1 < 2 ^ 31 },
}

/// What `reopen` found.
#[derive(Drop)]
pub struct Reopened {
    /// The log behind the frame where the gate reads open, else before it.
    pub log: Resting,
    /// Whether the gate reads open, so that the frame is settled. Else it is dropped.
    pub settled: bool,
}

/// Why no frame was written.
#[derive(Drop, Error)]
pub enum BodyError {
    /// The file would come to this length, which is not below the limit. Nothing was written.
    #[error("the log would come to {length} bytes")]
    Full {
        /// The length that the file would have.
        length: u64,
        /// The log as it was.
        log: Resting,
    },
    /// The write failed.
    #[error("the disk failed")]
    SiteFault(BrokenBody),
    /// Memory ran out. Nothing was written.
    #[error("out of memory")]
    Memory(Resting),
}

// Each error has a debug form, and the message serves.
impl fmt::Debug for BodyError {
    fn fmt<W: fmt::Write>(&self, f: &mut fmt::Formatter<W>) -> fmt::Result {
        fmt::Display::fmt(self, f)
    }
}
