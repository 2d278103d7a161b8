//! Values and names.

ghost use Rattle.std.specs.Prelude.{◌≡◌, [], Ok};
ghost use Rattle.json_tree.specs.View.{view, items_view};
ghost use Rattle.flow_values.specs.Answers.{PartGives};
ghost use Rattle.flow_values.specs.Faults.{at, to_part, where_fits};
ghost use Rattle.dura_value.specs.Values.{value_of};
ghost use Rattle.flow_values.specs.Values.{is_text, list_in, name_in, scalar_in, scalars_from, value_in};

use crate::faults::{PartError, Path, Step, under};
use dura_value::{
    Name, SCALARS_LIMIT, Scalar, Scalars, Text, TextError, Value, are_short, is_name,
};
use json_tree::Tree;
use std::alloc::Global;

/// This value isn't of the shape wanted.
pub fn misshapen(alloc: Global) -> PartError
    ensures { result ≡ PartError.Misshapen [] }
{
    PartError::Misshapen(Path::here(alloc))
}

#[tactic(auto, using(crate::proofs::Texts::text_passes, crate::proofs::Texts::long_fails))]
fn text_in(alloc: Global, text: &str) -> Result<Text, PartError>
    ensures { PartGives (λ t. t) result (where_fits (is_text text.now) (Ok text.now)) }
{
    match Text::read(alloc, text.as_bytes()) {
        Ok(text) => Ok(text),
        Err(TextError::TooLong { .. }) => Err(misshapen(alloc)),
        Err(TextError::NotUtf8 { .. }) => Err(misshapen(alloc)),
        Err(TextError::Memory) => Err(PartError::Memory),
    }
}

pub(crate) fn scalar_in(alloc: Global, value: &Tree<'_>) -> Result<Scalar, PartError>
    ensures { PartGives (λ s. s) result (scalar_in (view value.now)) }
{
    match value {
        Tree::Null => Ok(Scalar::Null),
        Tree::Bool(truth) => {
            if *truth {
                Ok(Scalar::True)
            } else {
                Ok(Scalar::False)
            }
        }
        Tree::Number(number) => match number.as_i64() {
            Some(number) => Ok(Scalar::Int(number)),
            None => Err(misshapen(alloc)),
        },
        Tree::String(text) => match text_in(alloc, text) {
            Ok(text) => Ok(Scalar::Text(text)),
            Err(error) => Err(error),
        },
        Tree::Array(_) => Err(misshapen(alloc)),
        Tree::Object(_) => Err(misshapen(alloc)),
    }
}

pub fn name_in(alloc: Global, value: &Tree<'_>) -> Result<Name, PartError>
    ensures { PartGives (λ name. name) result (name_in (view value.now)) }
{
    match value {
        Tree::String(text) => {
            if is_name(text.as_bytes()) {
                Ok(Name::of(alloc, text.as_bytes())?)
            } else {
                Err(misshapen(alloc))
            }
        }
        Tree::Null => Err(misshapen(alloc)),
        Tree::Bool(_) => Err(misshapen(alloc)),
        Tree::Number(_) => Err(misshapen(alloc)),
        Tree::Array(_) => Err(misshapen(alloc)),
        Tree::Object(_) => Err(misshapen(alloc)),
    }
}

/// The name at a place of an array.
#[tactic(auto, using(crate::proofs::Parts::fails_under))]
pub fn name_at(alloc: Global, value: &Tree<'_>, index: usize) -> Result<Name, PartError>
    ensures { PartGives (λ name. name) result (at (to_part index) (name_in (view value.now))) }
{
    match name_in(alloc, value) {
        Ok(name) => Ok(name),
        Err(error) => Err(under(error, Step::Part(index))),
    }
}

/// The scalars of an array, from the first on.
#[tactic(auto, using(crate::proofs::Scalars::goes_on, crate::proofs::Scalars::ends))]
fn scalars_in(alloc: Global, parts: &[Tree<'_>]) -> Result<Vec<Scalar>, PartError>
    ensures { PartGives (λ scalars. scalars.items) result (scalars_from 0 (items_view parts.now)) }
{
    let mut scalars = Vec::with_capacity(alloc, parts.len())?;
    for (index, part) in parts.iter().enumerate() {
        match scalar_in(alloc, part) {
            Ok(scalar) => scalars.push(scalar)?,
            Err(error) => return Err(under(error, Step::Part(index))),
        }
    }
    Ok(scalars)
}

#[tactic(auto, using(crate::proofs::Scalars::count_of_items))]
fn list_in(alloc: Global, parts: &[Tree<'_>]) -> Result<Scalars, PartError>
    ensures { PartGives (λ scalars. scalars) result (list_in (items_view parts.now)) }
{
    if parts.len() > SCALARS_LIMIT {
        return Err(misshapen(alloc));
    }
    let scalars = scalars_in(alloc, parts)?;
    if are_short(&scalars) {
        Ok(Scalars::of(scalars))
    } else {
        Err(misshapen(alloc))
    }
}

/// A scalar as a value.
fn value_of(scalar: Scalar) -> Value
    ensures { result ≡ value_of scalar }
{
    match scalar {
        Scalar::Null => Value::Null,
        Scalar::False => Value::False,
        Scalar::True => Value::True,
        Scalar::Int(number) => Value::Int(number),
        Scalar::Text(text) => Value::Text(text),
    }
}

pub fn value_in(alloc: Global, value: &Tree<'_>) -> Result<Value, PartError>
    ensures { PartGives (λ v. v) result (value_in (view value.now)) }
{
    match value.as_array() {
        Some(parts) => match list_in(alloc, parts) {
            Ok(scalars) => Ok(Value::List(scalars)),
            Err(error) => Err(error),
        },
        None => match scalar_in(alloc, value) {
            Ok(scalar) => Ok(value_of(scalar)),
            Err(error) => Err(error),
        },
    }
}
