//! What reaches an instance.

use dura_value::{Answer, Id, Name, Reply, Value};

/// An event of an instance.
#[derive(Drop)]
pub enum Event {
    /// Its start, by whom, with which argument, and who is answered.
    Started(Id, Value, Reply),
    /// The result of a task.
    Resulted(u32, Answer),
    /// An event of this name was raised.
    Raised(Name, Value),
    /// The timer of a task fired.
    Fired(u32),
    /// The lock of a task was granted.
    Granted(u32),
}

/// An event of a history, with its stamp.
#[derive(Drop)]
pub struct Past {
    /// The event.
    pub event: Event,
    /// Its stamp.
    pub stamp: u64,
}
