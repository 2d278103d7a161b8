//! The values that JSON stands for.

ghost use Rattle.std.specs.Prelude.{◌≡◌, ◌++◌, [], ◌∷◌, length, option_map};
ghost use Rattle.std.specs.Str.{IsUtf8};
ghost use Rattle.serde_json.specs.View.{view, items_view};
ghost use Rattle.request_reader.specs.Reading.{LineGives};
ghost use Rattle.dura_value.specs.Optional.{where_it};
ghost use Rattle.dura_value.specs.Values.{value_of};
ghost use Rattle.request_reader.specs.Values.{is_text, scalar_in, scalars_in, list_in, value_in, value_at};

use crate::error::ReadError;
use dura_value::{SCALARS_LIMIT, Scalar, Scalars, Text, TextError, Value, are_short};
use serde_json::Value as Json;
use std::alloc::Global;

#[tactic(auto, using(crate::proofs::Texts::text_passes, crate::proofs::Texts::long_fails, crate::proofs::Texts::invalid_fails))]
fn text_in(alloc: Global, text: &str) -> Result<Text, ReadError>
    ensures { LineGives (λ t. t) result (where_it is_text text.now) }
{
    match Text::read(alloc, text.as_bytes()) {
        Ok(text) => Ok(text),
        Err(TextError::TooLong { .. }) => Err(ReadError::Refused),
        Err(TextError::NotUtf8 { .. }) => Err(ReadError::Refused),
        Err(TextError::Memory) => Err(ReadError::Memory),
    }
}

fn scalar_in(alloc: Global, value: &Json) -> Result<Scalar, ReadError>
    ensures { LineGives (λ s. s) result (scalar_in (view value.now)) }
{
    match value {
        Json::Null => Ok(Scalar::Null),
        Json::Bool(truth) => {
            if *truth {
                Ok(Scalar::True)
            } else {
                Ok(Scalar::False)
            }
        }
        Json::Number(number) => match number.as_i64() {
            Some(number) => Ok(Scalar::Int(number)),
            None => Err(ReadError::Refused),
        },
        Json::String(text) => match text_in(alloc, text.as_str()) {
            Ok(text) => Ok(Scalar::Text(text)),
            Err(error) => Err(error),
        },
        Json::Array(_) => Err(ReadError::Refused),
        Json::Object(_) => Err(ReadError::Refused),
    }
}

/// The scalar that a part stands for comes behind the others.
fn push_scalar(alloc: Global, scalars: &mut Vec<Scalar>, part: &Json) -> Result<(), ReadError>
    ensures { LineGives (λ _. scalars.new.items) result
        (option_map (λ s. scalars.old.items ++ s ∷ []) (scalar_in (view part.now))) }
{
    match scalar_in(alloc, part) {
        Ok(scalar) => Ok(scalars.push(scalar)?),
        Err(error) => Err(error),
    }
}

#[tactic(auto, using(crate::proofs::Scalars::goes_on, crate::proofs::Scalars::ends))]
fn scalars_in(alloc: Global, parts: &[Json]) -> Result<Vec<Scalar>, ReadError>
    ensures { LineGives (λ scalars. scalars.items) result (scalars_in (items_view parts.now)) }
{
    let mut scalars = Vec::new(alloc);
    for part in parts {
        match push_scalar(alloc, &mut scalars, part) {
            Ok(()) => (),
            Err(error) => return Err(error),
        }
    }
    Ok(scalars)
}

#[tactic(auto, using(crate::proofs::Counted::count_of_items))]
fn list_in(alloc: Global, parts: &[Json]) -> Result<Scalars, ReadError>
    ensures { LineGives (λ scalars. scalars) result (list_in (items_view parts.now)) }
{
    if parts.len() > SCALARS_LIMIT {
        return Err(ReadError::Refused);
    }
    let scalars = scalars_in(alloc, parts)?;
    if are_short(&scalars) {
        Ok(Scalars::of(scalars))
    } else {
        Err(ReadError::Refused)
    }
}

/// A scalar as a value.
fn value_of(scalar: Scalar) -> Value
    ensures { result ≡ value_of scalar }
{
    match scalar {
        Scalar::Null => Value::Null,
        Scalar::False => Value::False,
        Scalar::True => Value::True,
        Scalar::Int(number) => Value::Int(number),
        Scalar::Text(text) => Value::Text(text),
    }
}

fn value_in(alloc: Global, value: &Json) -> Result<Value, ReadError>
    ensures { LineGives (λ v. v) result (value_in (view value.now)) }
{
    match value.as_array() {
        Some(parts) => match list_in(alloc, parts) {
            Ok(scalars) => Ok(Value::List(scalars)),
            Err(error) => Err(error),
        },
        None => match scalar_in(alloc, value) {
            Ok(scalar) => Ok(value_of(scalar)),
            Err(error) => Err(error),
        },
    }
}

/// The value under the key, null where there is none.
pub(crate) fn value_at(alloc: Global, value: &Json, key: &str) -> Result<Value, ReadError>
    ensures { LineGives (λ v. v) result (value_at key.now (view value.now)) }
{
    match value.get(key) {
        Some(value) => value_in(alloc, value),
        None => Ok(Value::Null),
    }
}
