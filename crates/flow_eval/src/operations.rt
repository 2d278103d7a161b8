//! Operations on values.

ghost use Rattle.std.specs.Prelude.{◌≡◌};
ghost use Rattle.flow_syntax.specs.Eval.{apply_unary, apply_binary, length_in, on_truths, bool_and, bool_or};
ghost use Rattle.flow_syntax.specs.Views.{unary_of, binary_of};
ghost use Rattle.flow_eval.specs.Gives.{EvalGives};

use crate::comparisons::{are_equal, is_less};
use crate::fault::{EvalError, Fault};
use crate::integers::{difference, product, quotient, remainder, sum};
use crate::kinds::{scalar_in, to_integer, to_list, to_text, to_truth, truth};
use crate::lists::{part_at, pushed};
use crate::texts::{decimal, joined};
use dura_value::Value;
use flow_syntax::{BinaryOp, UnaryOp};
use std::alloc::Global;

fn length_in(value: &Value) -> Result<Value, EvalError>
    ensures { EvalGives (λ value. value) result (length_in value.now) }
{
    match value {
        Value::Text(text) => Ok(Value::Int(text.as_bytes().len() as i64)),
        Value::List(parts) => Ok(Value::Int(parts.as_slice().len() as i64)),
        _ => Err(EvalError::Thrown(Fault::Type)),
    }
}

fn both(first: &Value, second: &Value) -> Result<Value, EvalError>
    ensures { EvalGives (λ value. value) result (on_truths bool_and first.now second.now) }
{
    let (a, b) = (to_truth(first)?, to_truth(second)?);
    Ok(truth(a && b))
}

fn either(first: &Value, second: &Value) -> Result<Value, EvalError>
    ensures { EvalGives (λ value. value) result (on_truths bool_or first.now second.now) }
{
    let (a, b) = (to_truth(first)?, to_truth(second)?);
    Ok(truth(a || b))
}

/// What an operation of one part gives.
pub fn apply_unary(alloc: Global, operation: UnaryOp, part: &Value) -> Result<Value, EvalError>
    ensures { EvalGives (λ value. value) result (apply_unary (unary_of operation) part.now) }
{
    match operation {
        UnaryOp::Not => Ok(truth(!to_truth(part)?)),
        UnaryOp::Len => length_in(part),
        UnaryOp::Str => decimal(alloc, to_integer(part)?),
    }
}

/// What an operation of two parts gives.
pub fn apply_binary(
    alloc: Global,
    operation: BinaryOp,
    first: &Value,
    second: &Value,
) -> Result<Value, EvalError>
    ensures { EvalGives (λ value. value) result
        (apply_binary (binary_of operation) first.now second.now) }
{
    match operation {
        BinaryOp::Add => sum(to_integer(first)?, to_integer(second)?),
        BinaryOp::Sub => difference(to_integer(first)?, to_integer(second)?),
        BinaryOp::Mul => product(to_integer(first)?, to_integer(second)?),
        BinaryOp::Div => quotient(to_integer(first)?, to_integer(second)?),
        BinaryOp::Rem => remainder(to_integer(first)?, to_integer(second)?),
        BinaryOp::Eq => Ok(truth(are_equal(first, second))),
        BinaryOp::Lt => is_less(first, second),
        BinaryOp::And => both(first, second),
        BinaryOp::Or => either(first, second),
        BinaryOp::Cat => joined(alloc, to_text(first)?, to_text(second)?),
        BinaryOp::At => part_at(to_list(first)?.as_slice(), to_integer(second)?),
        BinaryOp::Push => pushed(alloc, to_list(first)?.as_slice(), scalar_in(second)?),
    }
}
