//! The section that an instance is in, and what may be done there.

ghost use Rattle.std.specs.Prelude.{◌≡◌};
ghost use Rattle.dura_value.specs.Views.{spot_of};
ghost use Rattle.flow_syntax.specs.Machine.{may_ask, may_signal, may_start, may_lock};
ghost use Rattle.flow_tasks.specs.Views.{section_of, tasks_of};

use crate::sets::is_among;
use crate::tasks::Tasks;
use dura_value::{Spot, Spots};

/// Where an instance is as to sections.
#[derive(Drop)]
pub enum Section {
    /// Outside of any.
    Outside,
    /// It waits with this task for the set.
    Acquiring(u32, Spots),
    /// Inside one that holds the set.
    Inside(Spots),
}

impl Section {
    /// Inside a section an ask goes to a locked entity whose ask before has its result.
    pub fn may_ask(&self, spot: &Spot, tasks: &Tasks) -> bool
        ensures { result ≡ may_ask (section_of self.now) (spot_of spot.now) (tasks_of tasks.now) }
    {
        match self {
            Section::Inside(set) => is_among(spot, set.as_slice()) && !tasks.has_open_ask(spot),
            _ => true,
        }
    }

    /// Inside a section no signal goes to a locked entity.
    pub fn may_signal(&self, spot: &Spot) -> bool
        ensures { result ≡ may_signal (section_of self.now) (spot_of spot.now) }
    {
        match self {
            Section::Inside(set) => !is_among(spot, set.as_slice()),
            _ => true,
        }
    }

    /// Inside a section no flow is started.
    pub fn may_start(&self) -> bool
        ensures { result ≡ may_start (section_of self.now) }
    {
        !matches!(self, Section::Inside(_))
    }

    /// A section begins outside of others, with no ask and no started flow open.
    pub fn may_lock(&self, tasks: &Tasks) -> bool
        ensures { result ≡ may_lock (section_of self.now) (tasks_of tasks.now) }
    {
        match self {
            Section::Outside => !tasks.has_open_call(),
            _ => false,
        }
    }
}
