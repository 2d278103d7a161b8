//! `add`, and how an activity fails.

ghost use Rattle.std.specs.Prelude.{◌≡◌, ◌≤◌, length, IfOk};
ghost use Rattle.activity_table.specs.Activities.{sum_of, added};

use dura_value::{Outcome, Scalar, Text, Value};
use std::alloc::{AllocError, Global};

/// An activity failed with this word.
pub(crate) fn failed(alloc: Global, fault: &str) -> Result<Outcome, AllocError>
    requires { length fault.now ≤ 4096 }
    ensures { IfOk result (λ outcome. outcome ≡ Outcome.Failed fault.now) }
{
    match Text::read(alloc, fault.as_bytes()) {
        Ok(text) => Ok(Outcome::Failed(text)),
        Err(_) => Err(AllocError),
    }
}

/// The sum of a list of two integers.
pub(crate) fn added(alloc: Global, argument: &Value) -> Result<Outcome, AllocError>
    ensures { IfOk result (λ outcome. outcome ≡ added argument.now) }
{
    match argument {
        Value::List(parts) => sum_of(alloc, parts.as_slice()),
        _ => failed(alloc, "type"),
    }
}

/// The sum of two integers.
fn sum_of(alloc: Global, parts: &[Scalar]) -> Result<Outcome, AllocError>
    ensures { IfOk result (λ outcome. outcome ≡ sum_of parts.now) }
{
    let [Scalar::Int(a), Scalar::Int(b)] = parts else {
        return failed(alloc, "type");
    };
    match a.checked_add(*b) {
        Some(sum) => Ok(Outcome::Done(Value::Int(sum))),
        None => failed(alloc, "overflow"),
    }
}
