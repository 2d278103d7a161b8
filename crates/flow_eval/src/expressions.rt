//! What an expression gives.

ghost use Rattle.std.specs.Prelude.{◌≡◌};
ghost use Rattle.flow_syntax.specs.Eval.{eval, eval_parts, to_scalars, value_in};
ghost use Rattle.flow_syntax.specs.Syntax.{list};
ghost use Rattle.flow_syntax.specs.Views.{expression_of, parts_of};
ghost use Rattle.flow_eval.specs.Gives.{EvalGives};

use crate::fault::{EvalError, Fault};
use crate::kinds::{to_scalar, value_of};
use crate::lists::{copy_of, list_of};
use crate::operations::{apply_binary, apply_unary};
use crate::variables::Variables;
use dura_value::{Name, Scalar, Value, with};
use flow_syntax::Expr;
use std::alloc::Global;

/// A copy of a variable's value.
fn value_in(variables: &Variables, name: &Name) -> Result<Value, EvalError>
    ensures { EvalGives (λ value. value) result (value_in variables.now name.now) }
{
    match variables.get(name) {
        Some(value) => Ok(value.clone()?),
        None => Err(EvalError::Thrown(Fault::Unset)),
    }
}

/// The scalars that values are.
pub fn to_scalars(alloc: Global, values: Vec<Value>) -> Result<Vec<Scalar>, EvalError>
    ensures { EvalGives (λ scalars. scalars.items) result (to_scalars values.items) }
{
    let mut scalars = Vec::with_capacity(alloc, values.len())?;
    for value in values {
        match to_scalar(value) {
            Ok(scalar) => scalars.push(scalar)?,
            Err(error) => return Err(error),
        }
    }
    Ok(scalars)
}

/// What an expression gives, or the fault that it throws.
#[cycle(eval)]
pub fn eval(alloc: Global, expression: &Expr, variables: &Variables) -> Result<Value, EvalError>
    ensures { EvalGives (λ value. value) result
        (eval variables.now (expression_of expression.now)) }
{
    match expression {
        Expr::Scalar(scalar) => Ok(value_of(copy_of(scalar)?)),
        Expr::Variable(name) => value_in(variables, name),
        Expr::List(parts) => eval_list(alloc, parts, variables),
        Expr::Unary(operation, part) => {
            let part = eval(alloc, part, variables)?;
            let made = apply_unary(alloc, *operation, &part);
            drop(part);
            made
        }
        Expr::Binary(operation, first, second) => {
            let first = eval(alloc, first, variables)?;
            let (second, first) = with(eval(alloc, second, variables), first)?;
            let made = apply_binary(alloc, *operation, &first, &second);
            drop(second);
            drop(first);
            made
        }
    }
}

/// The list of what parts give: first all of them are evaluated, then kinds count, and then limits.
#[cycle(eval)]
fn eval_list(alloc: Global, parts: &[Expr], variables: &Variables) -> Result<Value, EvalError>
    ensures { EvalGives (λ value. value) result (eval variables.now (list (parts_of parts.now))) }
{
    let values = eval_parts(alloc, parts, variables)?;
    let scalars = to_scalars(alloc, values)?;
    list_of(scalars)
}

/// What parts give, from left to right.
#[cycle(eval)]
fn eval_parts(alloc: Global, parts: &[Expr], variables: &Variables) -> Result<Vec<Value>, EvalError>
    ensures { EvalGives (λ values. values.items) result
        (eval_parts variables.now (parts_of parts.now)) }
{
    let mut values = Vec::with_capacity(alloc, parts.len())?;
    for part in parts {
        match eval(alloc, part, variables) {
            Ok(value) => values.push(value)?,
            Err(error) => return Err(error),
        }
    }
    Ok(values)
}
