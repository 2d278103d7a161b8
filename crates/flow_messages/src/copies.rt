//! Copies of what instances and messages have.

ghost use Rattle.std.specs.Prelude.{◌≡◌, IfOk};

use dura_value::{Id, Key, Name, Outcome, Reply, Spots, Text, Value};
use std::alloc::AllocError;

/// A copy of an id.
pub fn copy_id(id: &Id) -> Result<Id, AllocError>
    ensures { IfOk result (λ copy. copy ≡ id.now) }
{
    id.clone()
}

/// A copy of a name.
pub fn copy_name(name: &Name) -> Result<Name, AllocError>
    ensures { IfOk result (λ copy. copy ≡ name.now) }
{
    name.clone()
}

/// A copy of a key.
pub fn copy_key(key: &Key) -> Result<Key, AllocError>
    ensures { IfOk result (λ copy. copy ≡ key.now) }
{
    key.clone()
}

/// A copy of a text.
pub fn copy_text(text: &Text) -> Result<Text, AllocError>
    ensures { IfOk result (λ copy. copy ≡ text.now) }
{
    text.clone()
}

/// A copy of a value.
pub fn copy_value(value: &Value) -> Result<Value, AllocError>
    ensures { IfOk result (λ copy. copy ≡ value.now) }
{
    value.clone()
}

/// A copy of a reply.
pub fn copy_reply(reply: &Reply) -> Reply
    ensures { result ≡ reply.now }
{
    match reply {
        Reply::None => Reply::None,
        Reply::Task(number) => Reply::Task(*number),
        Reply::Request(number) => Reply::Request(*number),
    }
}

/// A copy of a set.
pub fn copy_spots(spots: &Spots) -> Result<Spots, AllocError>
    ensures { IfOk result (λ copy. copy ≡ spots.now) }
{
    spots.clone()
}

/// A copy of an outcome.
pub fn copy_outcome(outcome: &Outcome) -> Result<Outcome, AllocError>
    ensures { IfOk result (λ copy. copy ≡ outcome.now) }
{
    match outcome {
        Outcome::Done(value) => Ok(Outcome::Done(copy_value(value)?)),
        Outcome::Failed(text) => Ok(Outcome::Failed(copy_text(text)?)),
    }
}
