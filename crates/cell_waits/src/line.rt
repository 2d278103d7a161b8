//! Places that stand one behind another.

ghost use Rattle.std.specs.Prelude.{◌≡◌, ◌==◌, ◌++◌, ◌∷◌, [], OnOk, drop, length, slice_get};

use std::alloc::{AllocError, Global};
use std::collections::VecDeque;
use std::marker::Model;

/// Places that stand one behind another, the first one first. A contract sees the list of them.
#[derive(Drop)]
pub(crate) struct Line {
    places: VecDeque<u64>,
}

impl Model for Line {
    ghost use Rattle.std.specs.Prelude.{ℕ, List};

    ghost Value = { List ℕ };

    ghost view = { λ a. a.places.items };
}

impl Clone for Line {
    ghost is_clone = { λ line copy. copy ≡ line };

    fn clone(&self) -> Result<Self, AllocError> {
        let places = self.places.clone()?;
        Ok(Line { places })
    }
}

impl Line {
    /// No places.
    pub(crate) fn new(alloc: Global) -> Line
        ensures { result ≡ [] }
    {
        Line {
            places: VecDeque::new(alloc),
        }
    }

    /// Whether there are none.
    pub(crate) fn is_empty(&self) -> bool
        ensures { result ≡ (length self.now == 0) }
    {
        self.places.is_empty()
    }

    /// The first place.
    pub(crate) fn first(&self) -> Option<u64>
        ensures { result ≡ slice_get self.now 0 }
    {
        self.places.front().copied()
    }

    /// This place stands behind all others.
    pub(crate) fn push(&mut self, place: u64) -> Result<(), AllocError>
        ensures { OnOk result (self.new ≡ self.old ++ place ∷ []) }
    {
        self.places.push_back(place)?;
        Ok(())
    }

    /// The first place goes.
    pub(crate) fn pop(&mut self)
        ensures { self.new ≡ drop 1 self.old }
    {
        drop(self.places.pop_front());
    }
}
