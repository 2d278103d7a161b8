//! Why a call did nothing, or failed.

ghost use Rattle.std.specs.Prelude.{◌≡◌};
ghost use Rattle.hub_store.specs.Refused.{refusal_of};

use log_items::Frame;
use std::alloc::AllocError;

/// Why a frame did not go on.
#[derive(Clone, Copy, Debug, PartialEq, Eq)]
pub enum Refusal {
    /// No frame of the partition has come to this call. Nothing was done.
    NoFrame,
    /// The disk failed.
    SiteFault,
}

/// Why no files were made safe.
#[derive(Clone, Copy, Debug, PartialEq, Eq)]
pub enum SyncRefusal {
    /// No frame has come to this call. Nothing was done.
    NoFrame,
    /// Memory ran out. Nothing was done.
    Memory,
    /// The disk failed: each frame that waited is broken.
    SiteFault,
}

/// Why an answer was not said.
#[derive(Clone, Copy, Debug, PartialEq, Eq)]
pub enum SayError {
    /// The tape failed.
    SayFault,
    /// Memory ran out. Nothing was said.
    Memory,
}

impl From<AllocError> for SayError {
    ghost use Rattle.hub_store.specs.declared.refusal.SayError.TheVariants.{Memory};

    ghost from_gives = { λ _ error. error ≡ Memory };

    fn from(_error: AllocError) -> SayError {
        SayError::Memory
    }
}

/// Why no frame was written. Where nothing was, the frame comes back as it was handed in.
#[derive(Drop)]
pub enum Unwritten {
    /// The partition's log would come to this length, which is not below the segment's.
    Full {
        /// The partition.
        partition: u32,
        /// The length that its log would have.
        length: u64,
        /// The frame.
        frame: Frame,
    },
    /// The disk failed: the frame is under way still, until it is dropped.
    SiteFault,
    /// Memory ran out.
    Memory(Frame),
}

impl Unwritten {
    /// Lets go of the frame, and says why.
    pub fn let_go(self) -> BodyRefusal
        ensures { result ≡ refusal_of self }
    {
        match self {
            Unwritten::Full {
                partition,
                length,
                frame,
            } => {
                frame.let_go();
                BodyRefusal::Full { partition, length }
            }
            Unwritten::SiteFault => BodyRefusal::SiteFault,
            Unwritten::Memory(frame) => {
                frame.let_go();
                BodyRefusal::Memory
            }
        }
    }
}

/// Why an entry was not committed.
#[derive(Clone, Copy, Debug, PartialEq, Eq)]
pub enum BodyRefusal {
    /// The partition's log would come to this length, which is not below the segment's. Nothing was written.
    Full {
        /// The partition.
        partition: u32,
        /// The length that its log would have.
        length: u64,
    },
    /// The disk failed.
    SiteFault,
    /// Memory ran out. Nothing was written.
    Memory,
}

impl From<AllocError> for BodyRefusal {
    ghost use Rattle.hub_store.specs.declared.refusal.BodyRefusal.TheVariants.{Memory};

    ghost from_gives = { λ _ refusal. refusal ≡ Memory };

    fn from(_error: AllocError) -> BodyRefusal {
        BodyRefusal::Memory
    }
}
