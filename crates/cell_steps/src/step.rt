//! An entry that isn't settled.

use log_items::Entry;
use part_steps::PartState;

/// An entry that isn't settled, with the state after it.
#[derive(Drop)]
pub struct Step {
    /// The entry.
    pub entry: Entry,
    /// The state that it makes.
    pub after: PartState,
}

impl Step {
    /// Lets go of both.
    pub fn let_go(self) {
        let Step { entry, after } = self;
        entry.let_go();
        after.let_go();
    }
}
