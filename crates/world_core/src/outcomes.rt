//! Which outcomes an activity may give.

ghost use Rattle.std.specs.Prelude.{◌≡◌, IfOk};
ghost use Rattle.activity_table.specs.Table.{may, is_drawn, outcome_eq};

use activity_table::outcome_of;
use dura_value::{Outcome, Value};
use part_rows::Activity;
use std::alloc::{AllocError, Global};

/// Whether this is a word that may be drawn.
fn is_drawn(outcome: &Outcome) -> bool
    ensures { result ≡ is_drawn outcome.now }
{
    match outcome {
        Outcome::Done(Value::Int(number)) => *number >= 0,
        _ => false,
    }
}

/// Whether two outcomes are the same.
#[tactic(auto, using(dura_value::proofs::SameViews::value_eq_is))]
fn is_same(one: &Outcome, other: &Outcome) -> bool
    ensures { result ≡ outcome_eq one.now other.now }
{
    match (one, other) {
        (Outcome::Done(one), Outcome::Done(other)) => one == other,
        (Outcome::Failed(one), Outcome::Failed(other)) => one == other,
        _ => false,
    }
}

/// Whether an activity may give this outcome.
pub(crate) fn may_give(
    alloc: Global,
    activity: &Activity,
    outcome: &Outcome,
) -> Result<bool, AllocError>
    ensures { IfOk result (λ gives. gives
        ≡ may activity.now.name activity.now.argument outcome.now) }
{
    let Ok(name) = str::from_utf8(activity.name.as_bytes()) else {
        unreachable!()
    };
    if name == "draw" {
        return Ok(is_drawn(outcome));
    }
    let given = outcome_of(alloc, name, &activity.argument, 0)?;
    let same = is_same(outcome, &given);
    drop(given);
    Ok(same)
}
