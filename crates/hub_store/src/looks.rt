//! Looks at a store.

ghost use Rattle.std.specs.Prelude.{◌≡◌, ◌≤◌, ◌<◌, Some, None, MatchOption, length, drop};
ghost use Rattle.log_items.specs.Plain.{entries_of};
ghost use Rattle.hub_store.specs.Changes.{stage_at, going_at, trail_in};
ghost use Rattle.hub_store.specs.Plain.{trail_of};
ghost use Rattle.hub_store.specs.Sound.{IsSound};

use crate::start::Start;
use crate::store::Store;
use crate::trail::Settled;
use crate::way::{Stage, frame_of, reached};
use log_items::Frame;
use site_model::Site;

impl<V: Site, N: Start> Store<V, N> {
    /// The frame of a partition that is under way, where one is.
    pub fn frame(&self, part: u32) -> Option<&Frame>
        requires sound { IsSound self.now }
        requires place { part < N.origin.count }
        ensures { MatchOption result (going_at self.now part ≡ None)
            (λ frame. going_at self.now part ≡ Some (entries_of frame.now)) }
    {
        frame_of(&self.ways[part as usize])
    }

    /// How far the frame of a partition has come.
    pub fn stage(&self, part: u32) -> Stage
        requires sound { IsSound self.now }
        requires place { part < N.origin.count }
        ensures { result ≡ stage_at self.now part }
    {
        reached(&self.ways[part as usize])
    }

    /// How many entries were settled.
    pub fn count(&self) -> usize
        ensures { result ≡ length (trail_in self.now) }
    {
        self.trail.len()
    }

    /// What was settled behind so many entries.
    pub fn settled_from(&self, count: usize) -> &[Settled]
        requires { count ≤ length (trail_in self.now) }
        ensures { trail_of result.now ≡ drop count (trail_in self.now) }
    {
        &self.trail[count..]
    }

    /// Whether a device call failed, and no frame was dropped or log opened again since.
    pub fn is_halted(&self) -> bool
        ensures { result ≡ self.now.halted }
    {
        self.halted
    }

    /// Whether saying a line failed: then the store stays halted.
    pub fn is_cut(&self) -> bool
        ensures { result ≡ self.now.cut }
    {
        self.cut
    }
}
