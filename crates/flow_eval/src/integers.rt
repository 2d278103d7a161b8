//! Operations on integers.

ghost use Rattle.std.specs.Prelude.{◌≡◌, ◌+ℤ◌, ◌-ℤ◌, ◌*ℤ◌, int_div, int_rem};
ghost use Rattle.flow_syntax.specs.Eval.{integer, divided};
ghost use Rattle.flow_eval.specs.Gives.{EvalGives};

use crate::fault::{EvalError, Fault};
use dura_value::Value;

pub(crate) fn sum(a: i64, b: i64) -> Result<Value, EvalError>
    ensures { EvalGives (λ value. value) result (integer (a +ℤ b)) }
{
    match a.checked_add(b) {
        Some(sum) => Ok(Value::Int(sum)),
        None => Err(EvalError::Thrown(Fault::Overflow)),
    }
}

pub(crate) fn difference(a: i64, b: i64) -> Result<Value, EvalError>
    ensures { EvalGives (λ value. value) result (integer (a -ℤ b)) }
{
    match a.checked_sub(b) {
        Some(difference) => Ok(Value::Int(difference)),
        None => Err(EvalError::Thrown(Fault::Overflow)),
    }
}

pub(crate) fn product(a: i64, b: i64) -> Result<Value, EvalError>
    ensures { EvalGives (λ value. value) result (integer (a *ℤ b)) }
{
    match a.checked_mul(b) {
        Some(product) => Ok(Value::Int(product)),
        None => Err(EvalError::Thrown(Fault::Overflow)),
    }
}

pub(crate) fn quotient(a: i64, b: i64) -> Result<Value, EvalError>
    ensures { EvalGives (λ value. value) result (divided int_div a b) }
{
    if b == 0 {
        return Err(EvalError::Thrown(Fault::DivZero));
    }
    match a.checked_div(b) {
        Some(quotient) => Ok(Value::Int(quotient)),
        None => Err(EvalError::Thrown(Fault::Overflow)),
    }
}

pub(crate) fn remainder(a: i64, b: i64) -> Result<Value, EvalError>
    ensures { EvalGives (λ value. value) result (divided int_rem a b) }
{
    if b == 0 {
        return Err(EvalError::Thrown(Fault::DivZero));
    }
    match a.checked_rem(b) {
        Some(remainder) => Ok(Value::Int(remainder)),
        None => Err(EvalError::Thrown(Fault::Overflow)),
    }
}
