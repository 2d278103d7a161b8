//! Why a call refuses.

ghost use Rattle.std.specs.Prelude.{◌≡◌};
ghost use Rattle.gated_store.specs.Commits.{refusal_at};

use commit_gate::{Sending, Unmet};
use hub_store::BodyRefusal;
use log_items::Frame;

/// Why no frame was written.
pub enum BodyRefused {
    /// The log would come to this length, which isn't below the segment's. Nothing was written.
    Full {
        /// The length.
        length: u64,
        /// The frame as it was handed in.
        frame: Frame,
        /// And what it sends.
        sending: Vec<Sending>,
    },
    /// Memory ran out. Nothing was written.
    Memory {
        /// The frame as it was handed in.
        frame: Frame,
        /// And what it sends.
        sending: Vec<Sending>,
    },
    /// The disk failed: the frame is under way, and is only dropped from here.
    SiteFault,
}

impl BodyRefused {
    /// Lets go of the frame and of what it sends, and says why it was not written at this partition.
    pub fn let_go(self, partition: u32) -> BodyRefusal
        ensures { result ≡ refusal_at partition self }
    {
        match self {
            BodyRefused::Full {
                length,
                frame,
                sending,
            } => {
                frame.let_go();
                drop(sending);
                BodyRefusal::Full { partition, length }
            }
            BodyRefused::Memory { frame, sending } => {
                frame.let_go();
                drop(sending);
                BodyRefusal::Memory
            }
            BodyRefused::SiteFault => BodyRefusal::SiteFault,
        }
    }
}

/// Why a gate stayed closed.
#[derive(Clone, Copy)]
pub enum GateRefusal {
    /// No frame of the partition has come to this call. Nothing was done.
    NoFrame,
    /// The frame is not what it claims, or not yet. Nothing was done.
    Unmet(Unmet),
    /// The disk failed: whether the gate is open a reopening tells.
    SiteFault,
}

/// Why no line was said.
#[derive(Clone, Copy, PartialEq, Eq)]
pub enum SayRefusal {
    /// What was settled has no answer to the request. Nothing was said.
    NotAnswered,
    /// Memory ran out. Nothing was said.
    Memory,
    /// The tape failed: a front of the line may stand on it.
    SayFault,
}
