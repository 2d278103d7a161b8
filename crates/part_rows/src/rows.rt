//! What is kept of an instance.

ghost use Rattle.std.specs.Prelude.{◌≡◌};

use dura_value::{Id, Name, Value};
use flow_messages::{Past, copy_name, copy_value};
use shared_lists::{Shared, SharedList};
use std::alloc::AllocError;

/// A client's request that waits for the end of an instance.
#[derive(Clone, Drop)]
pub struct Waiting {
    /// The client.
    pub client: Id,
    /// The request's number.
    pub number: u32,
}

/// An instance as it is kept. Copies share its history and who waits for it.
#[derive(Drop)]
pub struct Row {
    /// Its last stamp.
    pub stamp: u64,
    /// Its events, the first of which came first.
    pub history: SharedList<Past>,
    /// Who waits for its end, the longest waiting first.
    pub waiting: Shared<Vec<Waiting>>,
}

impl Clone for Row {
    ghost is_clone = { λ row copy. copy ≡ row };

    fn clone(&self) -> Result<Self, AllocError> {
        Ok(Row {
            stamp: self.stamp,
            history: self.history.copy()?,
            waiting: self.waiting.copy()?,
        })
    }
}

/// An activity that is pending.
#[derive(Drop)]
pub struct Activity {
    /// Its name.
    pub name: Name,
    /// Its argument.
    pub argument: Value,
}

impl Clone for Activity {
    ghost is_clone = { λ activity copy. copy ≡ activity };

    fn clone(&self) -> Result<Self, AllocError> {
        Ok(Activity {
            name: copy_name(&self.name)?,
            argument: copy_value(&self.argument)?,
        })
    }
}
