//! Values by their kinds.

ghost use Rattle.std.specs.Prelude.{◌≡◌};
ghost use Rattle.dura_value.specs.Values.{value_of};
ghost use Rattle.flow_syntax.specs.Eval.{to_scalar, to_integer, to_truth, to_text, to_key, to_list, truth};
ghost use Rattle.flow_eval.specs.Gives.{EvalGives};

use crate::fault::{EvalError, Fault};
use dura_value::{Key, Scalar, Scalars, Text, Value, is_key};
use std::alloc::Global;

/// A scalar as a value.
pub fn value_of(scalar: Scalar) -> Value
    ensures { result ≡ value_of scalar }
{
    match scalar {
        Scalar::Null => Value::Null,
        Scalar::False => Value::False,
        Scalar::True => Value::True,
        Scalar::Int(n) => Value::Int(n),
        Scalar::Text(text) => Value::Text(text),
    }
}

/// A truth value.
pub fn truth(is: bool) -> Value
    ensures { result ≡ truth is }
{
    if is { Value::True } else { Value::False }
}

/// The scalar that a value is, unless it is a list.
pub fn to_scalar(value: Value) -> Result<Scalar, EvalError>
    ensures { EvalGives (λ scalar. scalar) result (to_scalar value) }
{
    match value {
        Value::Null => Ok(Scalar::Null),
        Value::False => Ok(Scalar::False),
        Value::True => Ok(Scalar::True),
        Value::Int(n) => Ok(Scalar::Int(n)),
        Value::Text(text) => Ok(Scalar::Text(text)),
        Value::List(_) => Err(EvalError::Thrown(Fault::Type)),
    }
}

/// A copy of the scalar that a value is, unless it is a list.
pub(crate) fn scalar_in(value: &Value) -> Result<Scalar, EvalError>
    ensures { EvalGives (λ scalar. scalar) result (to_scalar value.now) }
{
    to_scalar(value.clone()?)
}

/// The integer that a value is.
pub fn to_integer(value: &Value) -> Result<i64, EvalError>
    ensures { EvalGives (λ n. n) result (to_integer value.now) }
{
    match value {
        Value::Int(n) => Ok(*n),
        _ => Err(EvalError::Thrown(Fault::Type)),
    }
}

/// The truth value that a value is.
pub fn to_truth(value: &Value) -> Result<bool, EvalError>
    ensures { EvalGives (λ is. is) result (to_truth value.now) }
{
    match value {
        Value::True => Ok(true),
        Value::False => Ok(false),
        _ => Err(EvalError::Thrown(Fault::Type)),
    }
}

/// The text that a value is.
pub fn to_text(value: &Value) -> Result<&Text, EvalError>
    ensures { EvalGives (λ text. text.now) result (to_text value.now) }
{
    match value {
        Value::Text(text) => Ok(text),
        _ => Err(EvalError::Thrown(Fault::Type)),
    }
}

/// The list that a value is.
pub fn to_list(value: &Value) -> Result<&Scalars, EvalError>
    ensures { EvalGives (λ parts. parts.now) result (to_list value.now) }
{
    match value {
        Value::List(parts) => Ok(parts),
        _ => Err(EvalError::Thrown(Fault::Type)),
    }
}

/// The key that a value is.
pub fn to_key(alloc: Global, value: &Value) -> Result<Key, EvalError>
    ensures { EvalGives (λ key. key) result (to_key value.now) }
{
    match value {
        Value::Text(text) => {
            if is_key(text.as_bytes()) {
                Ok(Key::of(alloc, text.as_bytes())?)
            } else {
                Err(EvalError::Thrown(Fault::Key))
            }
        }
        _ => Err(EvalError::Thrown(Fault::Key)),
    }
}
