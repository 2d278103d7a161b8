//! Lists of scalars and their limits.

ghost use Rattle.std.specs.Prelude.{◌≡◌, [], ◌∷◌, ◌++◌, IfOk};
ghost use Rattle.flow_syntax.specs.Eval.{list_of, scalar_at, part_at};
ghost use Rattle.flow_eval.specs.Gives.{EvalGives};

use crate::fault::{EvalError, Fault};
use crate::kinds::value_of;
use dura_value::{SCALARS_LIMIT, Scalar, Scalars, Value, are_short};
use std::alloc::{AllocError, Global};

/// A list of these, unless it is past a limit.
pub fn list_of(parts: Vec<Scalar>) -> Result<Value, EvalError>
    ensures { EvalGives (λ value. value) result (list_of parts.items) }
{
    if parts.len() > SCALARS_LIMIT || !are_short(&parts) {
        return Err(EvalError::Thrown(Fault::Size));
    }
    Ok(Value::List(Scalars::of(parts)))
}

/// The same scalar once more.
#[tactic(auto, using(dura_value::proofs::Copies::same_scalar))]
pub(crate) fn copy_of(scalar: &Scalar) -> Result<Scalar, AllocError>
    ensures { IfOk result (λ copy. copy ≡ scalar.now) }
{
    scalar.clone()
}

/// Copies of these, with room for one more.
#[tactic(auto, using(crate::proofs::Parts::one_copied))]
fn copied(alloc: Global, parts: &[Scalar]) -> Result<Vec<Scalar>, AllocError>
    ensures { IfOk result (λ copies. copies.items ≡ parts.now) }
{
    let mut copies = Vec::with_capacity(alloc, parts.len().saturating_add(1))?;
    for part in parts {
        copies.push(copy_of(part)?)?;
    }
    Ok(copies)
}

/// The list with one scalar more.
pub(crate) fn pushed(alloc: Global, parts: &[Scalar], one: Scalar) -> Result<Value, EvalError>
    ensures { EvalGives (λ value. value) result (list_of (parts.now ++ one ∷ [])) }
{
    let mut copies = copied(alloc, parts)?;
    copies.push(one)?;
    list_of(copies)
}

#[tactic(auto, using(crate::proofs::Parts::scalar_there, crate::proofs::Parts::no_scalar))]
fn scalar_at(parts: &[Scalar], index: usize) -> Result<Value, EvalError>
    ensures { EvalGives (λ value. value) result (scalar_at parts.now index) }
{
    if index < parts.len() {
        Ok(value_of(copy_of(&parts[index])?))
    } else {
        Err(EvalError::Thrown(Fault::Range))
    }
}

/// The scalar at a place.
pub(crate) fn part_at(parts: &[Scalar], index: i64) -> Result<Value, EvalError>
    ensures { EvalGives (λ value. value) result (part_at parts.now index) }
{
    match usize::try_from(index) {
        Ok(index) => scalar_at(parts, index),
        Err(_) => Err(EvalError::Thrown(Fault::Range)),
    }
}
