//! The state of a cell.

ghost use Rattle.std.specs.Prelude.{◌≡◌};
ghost use Rattle.cell_steps.specs.Steps.{last_of};

use crate::step::Step;
use cell_tasks::GivenOut;
use cell_waits::Waits;
use part_steps::PartState;

/// The state by what is settled, the entries behind it that aren't, each with the state after it, what waits, and what was given out.
#[derive(Drop)]
pub struct Live {
    /// The state by what is settled.
    pub base: PartState,
    /// The entries that aren't.
    pub steps: Vec<Step>,
    /// The incarnation that makes entries.
    pub incarnation: u64,
    /// What waits.
    pub waits: Waits,
    /// The tasks that were given out, of those that are pending in the settled state.
    pub given: GivenOut,
}

impl Live {
    /// The state ahead.
    pub fn ahead(&self) -> &PartState
        ensures { result.now ≡ last_of self.now.base self.now.steps.items }
    {
        match self.steps.last() {
            Some(step) => &step.after,
            None => &self.base,
        }
    }

    /// Lets go of all.
    pub fn let_go(self) {
        drop(self);
    }
}
