//! The log of a partition: payloads in frames, each behind a gate of one byte that is open or closed.
//!
//! A payload is appended in four device calls, each a state of its own: `Resting::body` writes the frame behind the
//! closed gate, `Bodied::sync_body` makes it safe, `Synced::gate` opens the gate, and `Gated::settle` makes that
//! safe. At every moment a crash leaves the frames before, with the new one or without it: before `gate` always
//! without, after `settle` always with it.
//!
//! A call that fails hands back a log that says whether its gate was tried. Before that, `drop_frame` gives a log that rests before the
//! frame, at the price of a sync; from then on `reopen` syncs and reads the gate, which decides. What a sync makes of a log is a step of
//! its own (`Bodied::synced`, `Gated::settled`, and `failed` of both), since one call may make several files safe.
//!
//! `Resting::format` makes a new segment, and [`open_log`] opens one: it syncs the file, measures it, and reads its header.
//! [`OpenedLog::frames`] stands before the first gate, and [`LogReader::next`] gives the frame behind the next gate and a reader behind
//! that frame, or, at a closed gate, the log at rest. A reader reads ahead in pieces of 1 MiB, or of one frame where that is longer. So
//! a recovery holds one piece and one payload of each log that it reads, and never the file.
//!
//! The format is told in `docs/FORMAT.md`, and as a definition in `specs/Segment.antt`; what stands at a gate, in
//! `specs/Frames.antt`.
#![tactic(auto)]

mod after_sync;
mod ahead;
mod append;
mod dropping;
mod format;
mod frame;
mod header;
mod laws;
mod opening;
mod parse;
mod payload;
mod reader;
mod reading;
mod reopen;
mod states;

pub use header::Header;
pub use laws::the_frames_are_the_whole;
pub use opening::open_log;
pub use payload::Payload;
pub use reader::{FrameError, LogReader, Next, OpenError, OpenedLog};
pub use states::{Bodied, BodyError, BrokenBody, BrokenGate, Gated, Reopened, Resting, Synced};
