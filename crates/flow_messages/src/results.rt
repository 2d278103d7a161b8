//! The results of several tasks.

ghost use Rattle.std.specs.Prelude.{IfOk};
ghost use Rattle.flow_syntax.specs.Machine.{all_values};
ghost use Rattle.flow_messages.specs.Values.{Collects};

use crate::copies::{copy_text, copy_value};
use dura_value::{Outcome, Text, Value};
use std::alloc::{AllocError, Global};

/// The values of results, or the first failure in their order.
#[tactic(auto, using(crate::proofs::AllValues::nothing_behind, crate::proofs::AllValues::none_left, crate::proofs::AllValues::one_done, crate::proofs::AllValues::one_failed))]
pub fn all_values(
    alloc: Global,
    outcomes: &[Outcome],
) -> Result<Result<Vec<Value>, Text>, AllocError>
    ensures { IfOk result (Collects (all_values outcomes.now)) }
{
    let mut values = Vec::with_capacity(alloc, outcomes.len())?;
    for outcome in outcomes {
        match outcome {
            Outcome::Done(value) => values.push(copy_value(value)?)?,
            Outcome::Failed(text) => return Ok(Err(copy_text(text)?)),
        }
    }
    Ok(Ok(values))
}
