// What a site can know of how things stand.
ghost use Rattle.std.specs.Prelude.{◌≡◌, ◌+◌, ◌-◌, ◌^◌, min, [], true};
ghost use Rattle.site_calls.specs.Events.{Unseen, replay};
ghost use Rattle.site_calls.specs.Known.{Knows};

use crate::fault::{Fault, FaultPlace};
use std::io;

/// How many steps there are before the first call, whatever the files held.
const STEPS_BEFORE: u64 = 288;

/// The standing after the calls so far, as far as code can know it.
#[derive(Clone, Copy)]
pub(crate) struct Known {
    /// How many steps there were, up to the last `u64`.
    pub(crate) moment: u64,
    pub(crate) is_loose: bool,
    pub(crate) is_broken: bool,
}

impl Known {
    /// What is known before the first call.
    pub(crate) fn at_start() -> Known
        ensures { (unseen : Unseen) → Knows result (replay unseen []) }
    {
        Known {
            moment: STEPS_BEFORE,
            is_loose: false,
            is_broken: false,
        }
    }

    pub(crate) fn count_steps(&mut self, count: u64)
        ensures { self.new ≡ record self.old
            { moment = min (self.old.moment + count) (2 ^ 64 - 1) } }
    {
        self.moment = self.moment.saturating_add(count);
    }
    /// The fault of a call that was to make safe, after which no later one is believed.
    pub(crate) fn broken_by(&mut self, place: FaultPlace, error: io::Error) -> Fault
        ensures broken { self.new ≡ record self.old { is_broken = true } }
        ensures fault { (result.place ≡ place) × (result.error ≡ error) }
    {
        self.is_broken = true;
        Fault { place, error }
    }
}
