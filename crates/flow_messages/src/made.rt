//! What a machine makes.

ghost use Rattle.std.specs.Prelude.{◌≡◌, []};

use dura_value::{Message, Name, Value};
use std::alloc::Global;

/// What a machine asks the outside for.
#[derive(Drop)]
pub enum Asked {
    /// The activity of this task, by its name and with its argument.
    Activity(u32, Name, Value),
    /// The timer of this task, and the stamp that it is due at.
    Timer(u32, u64),
}

/// What a machine made, in the order in which it made it.
#[derive(Drop)]
pub struct Made {
    /// What it sent.
    pub messages: Vec<Message>,
    /// What it asked for.
    pub asked: Vec<Asked>,
}

impl Made {
    /// Nothing was sent, and nothing asked for.
    pub fn new(alloc: Global) -> Made
        ensures messages { result.messages.items ≡ [] }
        ensures asked { result.asked.items ≡ [] }
    {
        Made {
            messages: Vec::new(alloc),
            asked: Vec::new(alloc),
        }
    }
}
