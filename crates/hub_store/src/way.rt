//! How far the frame of each partition has come.

ghost use Rattle.std.specs.Prelude.{◌≡◌, ◌<◌, Some, None, MatchOption, length, slice_set};
ghost use Rattle.log_items.specs.Plain.{entries_of};
ghost use Rattle.hub_store.specs.Ways.{stage_of, way_of, going_in, due_in, is_tried, is_open, is_untried};

use commit_log::{Bodied, BrokenBody, BrokenGate, Gated, Resting, Synced};
use log_items::Frame;
use std::mem;

/// How far the frame of a partition has come.
#[derive(Drop)]
pub(crate) enum Way {
    /// No frame is under way.
    Resting(Resting),
    /// It is written.
    Bodied(Bodied, Frame),
    /// It is on the disk, behind a closed gate.
    Synced(Synced, Frame),
    /// Its gate is written open.
    Gated(Gated, Frame),
    /// And made safe together with other files: it is to be settled, without a further device call.
    Safe(Gated, Frame),
    /// Writing it or making it safe failed: its gate was never tried.
    BrokenBody(BrokenBody, Frame),
    /// Opening its gate or making that safe failed.
    BrokenGate(BrokenGate, Frame),
    /// The log is taken out while a device call is made.
    Away,
}

/// The device call that a frame has come to.
#[derive(Clone, Copy, PartialEq, Eq)]
pub enum Stage {
    /// None: no frame is under way.
    Resting,
    /// It is written.
    Bodied,
    /// It is on the disk, behind a closed gate.
    Synced,
    /// Its gate is written open.
    Gated,
    /// Its open gate is on the disk, where its file was made safe together with others.
    Safe,
    /// Writing it or making it safe, which failed. Its gate was never tried.
    BrokenBody,
    /// Opening its gate or making that safe, which failed.
    BrokenGate,
}

impl Stage {
    /// Whether a frame is under way whose gate was tried: a crash may leave it.
    pub fn is_tried(self) -> bool
        ensures { result ≡ is_tried self }
    {
        match self {
            Stage::Gated | Stage::Safe | Stage::BrokenGate => true,
            Stage::Resting | Stage::Bodied | Stage::Synced | Stage::BrokenBody => false,
        }
    }

    /// Whether a frame is under way whose gate was written open, and no call on it failed: it is to be settled.
    pub fn is_open(self) -> bool
        ensures { result ≡ is_open self }
    {
        match self {
            Stage::Gated | Stage::Safe => true,
            Stage::Resting
            | Stage::Bodied
            | Stage::Synced
            | Stage::BrokenBody
            | Stage::BrokenGate => false,
        }
    }

    /// Whether a frame is under way whose gate was never tried: no crash leaves it.
    pub fn is_untried(self) -> bool
        ensures { result ≡ is_untried self }
    {
        match self {
            Stage::Bodied | Stage::Synced | Stage::BrokenBody => true,
            Stage::Resting | Stage::Gated | Stage::Safe | Stage::BrokenGate => false,
        }
    }
}

/// How far a frame has come.
pub(crate) fn reached(way: &Way) -> Stage
    ensures { result ≡ stage_of way.now }
{
    match way {
        Way::Resting(_) => Stage::Resting,
        Way::Bodied(_, _) => Stage::Bodied,
        Way::Synced(_, _) => Stage::Synced,
        Way::Gated(_, _) => Stage::Gated,
        Way::Safe(_, _) => Stage::Safe,
        Way::BrokenBody(_, _) | Way::Away => Stage::BrokenBody,
        Way::BrokenGate(_, _) => Stage::BrokenGate,
    }
}

/// The frame that is under way.
pub(crate) fn frame_of(way: &Way) -> Option<&Frame>
    ensures { MatchOption result (going_in way.now ≡ None)
        (λ frame. going_in way.now ≡ Some (entries_of frame.now)) }
{
    match way {
        Way::Bodied(_, frame)
        | Way::Synced(_, frame)
        | Way::Gated(_, frame)
        | Way::Safe(_, frame)
        | Way::BrokenBody(_, frame)
        | Way::BrokenGate(_, frame) => Some(frame),
        Way::Resting(_) | Way::Away => None,
    }
}

/// How many entries are in the frame that is under way.
pub(crate) fn due(way: &Way) -> usize
    ensures { result ≡ due_in way.now }
{
    match way {
        Way::Bodied(_, frame)
        | Way::Synced(_, frame)
        | Way::Gated(_, frame)
        | Way::Safe(_, frame)
        | Way::BrokenBody(_, frame)
        | Way::BrokenGate(_, frame) => frame.entries().len(),
        Way::Resting(_) | Way::Away => 0,
    }
}

/// Takes a partition's log out.
pub(crate) fn take_way(ways: &mut Vec<Way>, place: usize) -> Way
    requires { place < length ways.old.items }
    ensures way { result ≡ way_of ways.old.items place }
    ensures rest { ways.new.items ≡ slice_set ways.old.items place Way.Away }
{
    mem::replace(&mut ways[place], Way::Away)
}

/// Puts a partition's log in.
pub(crate) fn put_way(ways: &mut Vec<Way>, place: usize, way: Way)
    requires { place < length ways.old.items }
    ensures { ways.new.items ≡ slice_set ways.old.items place way }
{
    ways[place] = way;
}
