// How fast the disk is.
use std::rt::Clock;
use std::time::{Duration, Instant};

/// How many calls are measured, at the start.
const MEASURES: u32 = 8;

/// A disk that takes longer than this to make a file safe is slow.
const FAST_MICROSECONDS: u64 = 500;

/// The least time that the disk took to make safe what was just written, among the first calls that did.
#[derive(Drop)]
pub(crate) struct Pace {
    left: u32,
    has_written: bool,
    least: Option<Duration>,
}

impl Pace {
    /// Nothing is measured yet.
    pub(crate) fn unknown() -> Pace {
        Pace {
            left: MEASURES,
            has_written: false,
            least: None,
        }
    }

    /// Whether the disk is known to be fast.
    pub(crate) fn is_fast(&self) -> bool {
        let limit = Duration::from_micros(FAST_MICROSECONDS);
        matches!(self.least, Some(least) if least <= limit)
    }

    /// Something is written, so that the next call has something to make safe.
    pub(crate) fn wrote(&mut self) {
        self.has_written = true;
    }

    /// The moment at which a call begins that is to be measured.
    pub(crate) fn begin(&mut self, rt: &impl Clock) -> Option<Instant> {
        if self.left == 0 || !self.has_written {
            return None;
        }
        self.has_written = false;
        Instant::now(rt).ok()
    }

    /// Counts in a call that began at this moment and has ended.
    pub(crate) fn end(&mut self, rt: &impl Clock, begun: Option<Instant>) {
        let Some(begun) = begun else {
            return;
        };
        let Ok(took) = begun.elapsed(rt) else {
            return;
        };
        self.left = self.left.saturating_sub(1);
        self.least = Some(self.least.unwrap_or(took).min(took));
    }
}
