//! A timer.

ghost use Rattle.std.specs.Prelude.{◌≡◌, IfOk};

use dura_value::Id;
use flow_messages::copy_id;
use std::alloc::AllocError;

/// A timer. In order the one that is due first comes first; of those due at one stamp the first by id, then by task.
#[derive(Drop, PartialEq, Eq, PartialOrd, Ord)]
pub struct Timer {
    /// The stamp that it is due at.
    pub due: u64,
    /// The instance that it wakes.
    pub id: Id,
    /// The instance's task that it ends.
    pub task: u32,
}

impl Clone for Timer {
    ghost is_clone = { λ timer copy. copy ≡ timer };

    fn clone(&self) -> Result<Self, AllocError> {
        Timer::of(self.due, &self.id, self.task)
    }
}

impl Timer {
    /// The timer of this task of the instance.
    pub(crate) fn of(due: u64, id: &Id, task: u32) -> Result<Timer, AllocError>
        ensures { IfOk result (λ timer. timer ≡ record { due = due; id = id.now; task = task }) }
    {
        Ok(Timer {
            due,
            id: copy_id(id)?,
            task,
        })
    }
}
