// A log that is read frame by frame, and what a step of reading answers.
ghost use Rattle.std.specs.Prelude.{◌+◌, ◌<◌, ◌^◌};

use crate::ahead::Ahead;
use crate::header::Header;
use crate::payload::Payload;
use crate::states::Resting;
use thiserror::Error;

/// A log whose header was read. Its frames may be read from the first on, as often as is asked, without another sync.
#[derive(Clone, Copy, PartialEq, Eq)]
pub struct OpenedLog {
    /// The file's number.
    pub file: u32,
    /// The segment's header.
    pub header: Header,
    /// How long the file was when it was opened.
    pub size: u64,
}

/// A log that is read frame by frame. It holds up to 1 MiB that it read ahead, or a frame that is longer.
#[derive(Drop)]
pub struct LogReader {
    /// The file's number.
    pub file: u32,
    /// The segment's header.
    pub header: Header,
    /// Where the next gate stands.
    pub gate: u64,
    /// How long the file was when it was opened.
    pub size: u64,
    /// What was read from the gate on.
    pub(crate) ahead: Ahead,
    ghost below: { gate + 1 < 2 ^ 31 },
}

/// What stands at the next gate.
#[derive(Drop)]
pub enum Next {
    /// A frame with this payload, and the log behind it.
    Frame(Payload, LogReader),
    /// The gate is closed: the log at rest before it.
    End(Resting),
}

/// Why a log was not opened.
#[derive(Clone, Copy, Debug, Drop, PartialEq, Eq, Error)]
pub enum OpenError {
    /// The file holds no segment yet.
    #[error("the log is fresh")]
    Fresh,
    /// The header is none of this partition's log.
    #[error("the log is damaged at offset {offset}")]
    Damaged {
        /// The first byte that is wrong or missing.
        offset: u64,
    },
    /// The disk failed.
    #[error("the disk failed")]
    SiteFault,
}

/// Why no frame was read.
#[derive(Clone, Copy, Debug, Drop, PartialEq, Eq, Error)]
pub enum FrameError {
    /// The gate is missing, or no whole frame stands behind it.
    #[error("the log is damaged at offset {offset}")]
    Damaged {
        /// The first byte that is wrong or missing.
        offset: u64,
    },
    /// The disk failed.
    #[error("the disk failed")]
    SiteFault,
    /// Memory ran out.
    #[error("out of memory")]
    Memory,
}
