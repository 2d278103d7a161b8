//! The JSON of values.

ghost use Rattle.std.specs.Prelude.{◌≡◌, IfOk};
ghost use Rattle.serde_json.specs.Data.{array, string};
ghost use Rattle.serde_json.specs.View.{view};
ghost use Rattle.serde_json.specs.Written.{compact_text};
ghost use Rattle.client_port.specs.Lines.{scalar_data, items_data, value_data};

use dura_value::{Scalar, Text, Value};
use serde_json::Value as Json;
use std::alloc::{AllocError, Global};

fn text_of(alloc: Global, text: &Text) -> Result<Json, AllocError>
    ensures { IfOk result (λ json. view json ≡ string text.now) }
{
    Ok(Json::String(String::from_str(alloc, text.as_str())?))
}

fn scalar_of(alloc: Global, scalar: &Scalar) -> Result<Json, AllocError>
    ensures { IfOk result (λ json. view json ≡ scalar_data scalar.now) }
{
    match scalar {
        Scalar::Null => Ok(Json::Null),
        Scalar::False => Ok(Json::Bool(false)),
        Scalar::True => Ok(Json::Bool(true)),
        Scalar::Int(number) => Ok(Json::from(*number)),
        Scalar::Text(text) => text_of(alloc, text),
    }
}

#[tactic(auto, using(crate::proofs::Parts::with_part, crate::proofs::Parts::whole))]
fn list_of(alloc: Global, scalars: &[Scalar]) -> Result<Json, AllocError>
    ensures { IfOk result (λ json. view json ≡ array (items_data scalars.now)) }
{
    let mut parts = Vec::with_capacity(alloc, scalars.len())?;
    for scalar in scalars {
        parts.push(scalar_of(alloc, scalar)?)?;
    }
    Ok(Json::Array(parts))
}

fn value_of(alloc: Global, value: &Value) -> Result<Json, AllocError>
    ensures { IfOk result (λ json. view json ≡ value_data value.now) }
{
    match value {
        Value::Null => Ok(Json::Null),
        Value::False => Ok(Json::Bool(false)),
        Value::True => Ok(Json::Bool(true)),
        Value::Int(number) => Ok(Json::from(*number)),
        Value::Text(text) => text_of(alloc, text),
        Value::List(scalars) => list_of(alloc, scalars.as_slice()),
    }
}

/// A value as compact JSON.
#[tactic(auto, using(crate::proofs::Floats::written))]
pub(crate) fn value_text(alloc: Global, value: &Value) -> Result<Vec<u8>, AllocError>
    ensures { IfOk result (λ text. text.items ≡ compact_text (value_data value.now)) }
{
    let json = value_of(alloc, value)?;
    let text = json.to_vec(alloc)?;
    Ok(text)
}

/// A text as compact JSON.
pub(crate) fn quoted_text(alloc: Global, text: &Text) -> Result<Vec<u8>, AllocError>
    ensures { IfOk result (λ quoted. quoted.items ≡ compact_text (string text.now)) }
{
    let json = text_of(alloc, text)?;
    let text = json.to_vec(alloc)?;
    Ok(text)
}
